use super::{CALLS, PRINTS_7, alone, alone_in, fault_of, valid_of};
use object_format::{BadFile, What};
use std::test::Fail;

// Slots, code, and the place and the word of the first fault. The code stands at 19.
const FAULTS: [(u8, &[u8], u64, What); 14] = [
    (0, &[0x13, 0, 0, 0, 1], 19, What::Jump),
    (0, &[0x1a, 0x13, 0, 0, 0, 6], 20, What::Jump),
    (1, &[0x03, 0, 0x04, 1, 0x16], 21, What::Slot),
    (0, &[0x05, 0x16], 19, What::Height),
    (0, &[0x01, 1, 0x16], 21, What::Height),
    (0, &[0x16, 0x1a], 20, What::End),
    (0, &[], 19, What::End),
    // a word is there by one way to the return at 28, and none by the jump
    (
        0,
        &[0x01, 0, 0x14, 0, 0, 0, 9, 0x01, 1, 0x16],
        28,
        What::Height,
    ),
    // a jump back to the first instruction with a word more
    (0, &[0x1a, 0x01, 1, 0x13, 0, 0, 0, 0], 19, What::Height),
    // two jumps bring 0 and 1 words to the return at 33, which none goes on to
    (
        0,
        &[0x01, 0, 0x14, 0, 0, 0, 14, 0x01, 1, 0x13, 0, 0, 0, 14, 0x16],
        33,
        What::Height,
    ),
    // a jump ahead into the middle of a push
    (0, &[0x13, 0, 0, 0, 6, 0x01, 0, 0x05, 0x16], 19, What::Jump),
    // two faults at one place: no instruction to jump to, and no word to take
    (0, &[0x14, 0, 0, 0, 9], 19, What::Jump),
    // and a slot that is not there, and no word to take
    (0, &[0x04, 0, 0x16], 19, What::Slot),
    // what stands behind a return is looked at too, with no word
    (0, &[0x16, 0x05, 0x16], 20, What::Height),
];

#[test]
fn faults_of_code(rt: HostRuntime) -> Result<(), Fail> {
    for (slots, code, at, what) in &FAULTS {
        // the length of code has two bytes more in version 2
        for (version, more) in [(1u8, 0u64), (2, 2)] {
            let bytes = alone_in(rt.alloc(), version, *slots, code)?;
            let fault = BadFile {
                at: at.saturating_add(more),
                what: *what,
            };
            assert_eq!(rt; fault_of(rt.alloc(), &bytes), Some(fault));
        }
    }
    Ok(())
}

// A byte of `CALLS` that becomes 1, and the first fault then: the entry's params and result, and
// fewer slots than params in function 1.
const FIELDS: [(usize, u64, What); 3] = [
    (14, 6, What::Entry),
    (15, 6, What::Entry),
    (44, 44, What::Slots),
];

#[test]
fn faults_of_fields(rt: HostRuntime) -> Result<(), Fail> {
    for (index, at, what) in &FIELDS {
        let mut bytes = CALLS.to_vec(rt.alloc())?;
        if let Some(byte) = bytes.get_mut(*index) {
            *byte = 1;
        }
        let fault = fault_of(rt.alloc(), &bytes);
        assert_eq!(rt;
            fault,
            Some(BadFile {
                at: *at,
                what: *what
            })
        );
    }
    Ok(())
}

// A byte of the image of `PRINTS_7` that the format lets be another, what stands there then, and the
// first fault.
const CHANGES: [(usize, u8, Option<BadFile>); 6] = [
    (
        14,
        1,
        Some(BadFile {
            at: 6,
            what: What::Entry,
        }),
    ),
    (
        15,
        1,
        Some(BadFile {
            at: 6,
            what: What::Entry,
        }),
    ),
    (16, 1, None),
    (20, 8, None),
    (21, 0x18, None),
    (
        22,
        0x17,
        Some(BadFile {
            at: 22,
            what: What::Height,
        }),
    ),
];

#[test]
fn changed_bytes_are_judged(rt: HostRuntime) -> Result<(), Fail> {
    for (index, byte, fault) in &CHANGES {
        let mut bytes = alone(rt.alloc(), 0, &PRINTS_7)?;
        if let Some(place) = bytes.get_mut(*index) {
            *place = *byte;
        }
        assert_eq!(rt; fault_of(rt.alloc(), &bytes), *fault, "byte {index}");
        assert_eq!(rt; valid_of(rt.alloc(), &bytes).is_some(), fault.is_none());
    }
    Ok(())
}
