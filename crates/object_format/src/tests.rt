use super::*;
use lar_bytes::{Bytes, OrMemory};
use std::alloc::{AllocError, Global};
use std::test::Fail;

// One function that pushes 7, prints it and returns, in version 1 and in version 2.
const PRINTS_7_ONE: [u8; 23] = [
    0x4c, 0x52, 0x50, 0x58, 0, 1, 0, 0, 0, 0, 0, 0, 0, 1, 0, 0, 0, 0, 4, 0x01, 0x07, 0x17, 0x16,
];

const PRINTS_7: [u8; 25] = [
    0x4c, 0x52, 0x50, 0x58, 0, 2, 0, 0, 0, 0, 0, 0, 0, 1, 0, 0, 0, 0, 0, 0, 4, 0x01, 0x07, 0x17,
    0x16,
];

// A function that calls function 1, and function 1, which adds 1 to its argument; the entry is 0.
const ADDS_1_ONE: [u8; 40] = [
    0x4c, 0x52, 0x50, 0x58, 0, 1, 0, 0, 0, 0, 0, 0, 0, 2, 0, 0, 0, 0, 9, 0x01, 0x02, 0x15, 0, 0, 0,
    1, 0x17, 0x16, 1, 1, 1, 0, 7, 0x03, 0, 0x01, 1, 0x06, 0x16, 0x18,
];

const ADDS_1: [u8; 44] = [
    0x4c, 0x52, 0x50, 0x58, 0, 2, 0, 0, 0, 0, 0, 0, 0, 2, 0, 0, 0, 0, 0, 0, 9, 0x01, 0x02, 0x15, 0,
    0, 0, 1, 0x17, 0x16, 1, 1, 1, 0, 0, 0, 7, 0x03, 0, 0x01, 1, 0x06, 0x16, 0x18,
];

// The front of an image whose function promises the most bytes of code.
const MOST_CODE: [u8; 21] = [
    0x4c, 0x52, 0x50, 0x58, 0, 2, 0, 0, 0, 0, 0, 0, 0, 1, 0, 0, 0, 1, 0, 0, 0,
];

// The version of the bytes and the newest spelling of what they spell.
fn read_and_written(alloc: Global, bytes: &[u8]) -> Result<Option<(u16, Bytes)>, AllocError> {
    match read_image(alloc, bytes) {
        Ok(image) => Ok(Some((image_version(bytes), write_image(alloc, &image)?))),
        Err(_) => Ok(None),
    }
}

#[test]
fn images_of_both_versions_are_read(rt: HostRuntime) -> Result<(), Fail> {
    let rows: [(&[u8], u16, &[u8]); 4] = [
        (&PRINTS_7_ONE, 1, &PRINTS_7),
        (&PRINTS_7, 2, &PRINTS_7),
        (&ADDS_1_ONE, 1, &ADDS_1),
        (&ADDS_1, 2, &ADDS_1),
    ];
    for (bytes, version, newest) in rows {
        let read = read_and_written(rt.alloc(), bytes)?.ok_or("the bytes are an image")?;
        assert_eq!(rt; read.0, version);
        assert_eq!(rt; read.1.as_slice(), newest);
    }
    Ok(())
}

fn fault_of(alloc: Global, bytes: &[u8]) -> Option<BadFile> {
    match read_image(alloc, bytes) {
        Err(OrMemory::Refused(fault)) => Some(fault),
        _ => None,
    }
}

// The place of the field that each strict prefix cuts, by its length.
const CUT_AT_ONE: [u64; 23] = [
    0, 0, 0, 0, 4, 4, 6, 6, 6, 6, 10, 10, 10, 10, 14, 15, 16, 17, 17, 19, 19, 19, 19,
];

const CUT_AT: [u64; 25] = [
    0, 0, 0, 0, 4, 4, 6, 6, 6, 6, 10, 10, 10, 10, 14, 15, 16, 17, 17, 17, 17, 21, 21, 21, 21,
];

#[test]
fn each_strict_prefix_is_short(rt: HostRuntime) -> Result<(), Fail> {
    let rows: [(&[u8], &[u64]); 2] = [(&PRINTS_7_ONE, &CUT_AT_ONE), (&PRINTS_7, &CUT_AT)];
    for (bytes, places) in rows {
        for (len, at) in places.iter().enumerate() {
            let fault = BadFile {
                at: *at,
                what: What::Short,
            };
            assert_eq!(rt;
                fault_of(rt.alloc(), bytes.get(..len).unwrap_or(bytes)),
                Some(fault)
            );
        }
    }
    Ok(())
}

// An image, a byte of it that is changed, what stands there then, and the fault. An index behind the last puts one byte more.
const CHANGED: [(&[u8], usize, u8, u64, What); 37] = [
    (&PRINTS_7_ONE, 0, 0x4d, 0, What::Magic),
    (&PRINTS_7_ONE, 3, 0x59, 0, What::Magic),
    (&PRINTS_7_ONE, 4, 1, 4, What::Version),
    (&PRINTS_7_ONE, 5, 3, 4, What::Version),
    (&PRINTS_7_ONE, 5, 0, 4, What::Version),
    (&PRINTS_7_ONE, 5, 2, 21, What::Short),
    (&PRINTS_7_ONE, 6, 1, 6, What::Entry),
    (&PRINTS_7_ONE, 9, 1, 6, What::Entry),
    (&PRINTS_7_ONE, 10, 0xff, 23, What::Short),
    (&PRINTS_7_ONE, 13, 2, 23, What::Short),
    (&PRINTS_7_ONE, 13, 0, 6, What::Entry),
    (&PRINTS_7_ONE, 17, 1, 19, What::Short),
    (&PRINTS_7_ONE, 18, 5, 19, What::Short),
    (&PRINTS_7_ONE, 18, 3, 22, What::Trailing),
    (&PRINTS_7_ONE, 19, 0, 19, What::Code),
    (&PRINTS_7_ONE, 21, 0x1b, 21, What::Code),
    (&PRINTS_7_ONE, 22, 0x13, 22, What::Code),
    (&PRINTS_7_ONE, 23, 0, 23, What::Trailing),
    (&PRINTS_7, 2, 0x51, 0, What::Magic),
    (&PRINTS_7, 4, 1, 4, What::Version),
    (&PRINTS_7, 5, 3, 4, What::Version),
    (&PRINTS_7, 5, 1, 19, What::Trailing),
    (&PRINTS_7, 7, 1, 6, What::Entry),
    (&PRINTS_7, 13, 2, 25, What::Short),
    (&PRINTS_7, 17, 1, 17, What::Code),
    (&PRINTS_7, 17, 2, 17, What::Code),
    (&PRINTS_7, 18, 1, 21, What::Short),
    (&PRINTS_7, 20, 5, 21, What::Short),
    (&PRINTS_7, 20, 3, 24, What::Trailing),
    (&PRINTS_7, 21, 0, 21, What::Code),
    (&PRINTS_7, 23, 0x1b, 23, What::Code),
    (&PRINTS_7, 24, 0x13, 24, What::Code),
    (&PRINTS_7, 25, 0, 25, What::Trailing),
    (&ADDS_1, 27, 2, 24, What::Call),
    (&ADDS_1, 21, 0x1b, 21, What::Code),
    (&MOST_CODE, 0, 0x4c, 21, What::Short),
    (&MOST_CODE, 20, 1, 17, What::Code),
];

fn changed(alloc: Global, bytes: &[u8], index: usize, byte: u8) -> Result<Vec<u8>, AllocError> {
    let mut bytes = bytes.to_vec(alloc)?;
    match bytes.get_mut(index) {
        Some(place) => *place = byte,
        None => bytes.push(byte)?,
    }
    Ok(bytes)
}

#[test]
fn each_changed_byte_is_refused(rt: HostRuntime) -> Result<(), Fail> {
    for (bytes, index, byte, at, what) in &CHANGED {
        let bytes = changed(rt.alloc(), bytes, *index, *byte)?;
        let fault = BadFile {
            at: *at,
            what: *what,
        };
        assert_eq!(rt;
            fault_of(rt.alloc(), &bytes),
            Some(fault),
            "byte {index}, {byte}"
        );
    }
    Ok(())
}

#[test]
fn opcodes_have_their_numbers(rt: HostRuntime) -> Result<(), Fail> {
    for byte in 1..=26u8 {
        let opcode = Opcode::of(byte).ok_or("an opcode")?;
        assert_eq!(rt; opcode.number(), byte);
    }
    assert_eq!(rt; Opcode::of(0), None);
    assert_eq!(rt; Opcode::of(27), None);
    let first = split_first(&[0x01, 0x07, 0x17]).ok_or("an instruction")?;
    assert_eq!(rt; first.0, Opcode::Push8);
    assert_eq!(rt; first.1, [0x07].as_slice());
    assert_eq!(rt; first.2, [0x17].as_slice());
    assert_eq!(rt; What::Entry.word(), "entry");
    Ok(())
}
