use super::*;
use lar_bytes::{Bytes, OrMemory};
use std::alloc::{AllocError, Global};
use std::test::Fail;

// One external function `main::main`, which pushes 7, prints it and returns, in version 1 and in version 2.
const PRINTS_7_ONE: [u8; 38] = [
    0x4c, 0x52, 0x4f, 0x42, 0, 1, 0, 0, 0, 1, 0, 0, 0, 10, 0x6d, 0x61, 0x69, 0x6e, 0x3a, 0x3a,
    0x6d, 0x61, 0x69, 0x6e, 1, 0, 0, 0, 0, 4, 0x01, 0x07, 0x17, 0x16, 0, 0, 0, 0,
];

const PRINTS_7: [u8; 40] = [
    0x4c, 0x52, 0x4f, 0x42, 0, 2, 0, 0, 0, 1, 0, 0, 0, 10, 0x6d, 0x61, 0x69, 0x6e, 0x3a, 0x3a,
    0x6d, 0x61, 0x69, 0x6e, 1, 0, 0, 0, 0, 0, 0, 4, 0x01, 0x07, 0x17, 0x16, 0, 0, 0, 0,
];

// `main::main`, external, which prints what `main::inc` makes of 1 and calls `b::go`, and `main::inc`,
// which adds 1 to its argument; `b::go` is an external, so its number is 2.
const CALLS_ONE: [u8; 83] = [
    0x4c, 0x52, 0x4f, 0x42, 0, 1, 0, 0, 0, 2, 0, 0, 0, 10, 0x6d, 0x61, 0x69, 0x6e, 0x3a, 0x3a,
    0x6d, 0x61, 0x69, 0x6e, 1, 0, 0, 0, 0, 14, 0x01, 0x01, 0x15, 0, 0, 0, 1, 0x17, 0x15, 0, 0, 0,
    2, 0x16, 0, 0, 0, 9, 0x6d, 0x61, 0x69, 0x6e, 0x3a, 0x3a, 0x69, 0x6e, 0x63, 0, 1, 1, 1, 0, 7,
    0x03, 0, 0x01, 1, 0x06, 0x16, 0x18, 0, 0, 0, 1, 0, 0, 0, 5, 0x62, 0x3a, 0x3a, 0x67, 0x6f,
];

const CALLS: [u8; 87] = [
    0x4c, 0x52, 0x4f, 0x42, 0, 2, 0, 0, 0, 2, 0, 0, 0, 10, 0x6d, 0x61, 0x69, 0x6e, 0x3a, 0x3a,
    0x6d, 0x61, 0x69, 0x6e, 1, 0, 0, 0, 0, 0, 0, 14, 0x01, 0x01, 0x15, 0, 0, 0, 1, 0x17, 0x15, 0,
    0, 0, 2, 0x16, 0, 0, 0, 9, 0x6d, 0x61, 0x69, 0x6e, 0x3a, 0x3a, 0x69, 0x6e, 0x63, 0, 1, 1, 1, 0,
    0, 0, 7, 0x03, 0, 0x01, 1, 0x06, 0x16, 0x18, 0, 0, 0, 1, 0, 0, 0, 5, 0x62, 0x3a, 0x3a, 0x67,
    0x6f,
];

// Two internal functions without code, `f` and `g`.
const TWO_ONE: [u8; 36] = [
    0x4c, 0x52, 0x4f, 0x42, 0, 1, 0, 0, 0, 2, 0, 0, 0, 1, 0x66, 0, 0, 0, 0, 0, 0, 0, 0, 0, 1, 0x67,
    0, 0, 0, 0, 0, 0, 0, 0, 0, 0,
];

const TWO: [u8; 40] = [
    0x4c, 0x52, 0x4f, 0x42, 0, 2, 0, 0, 0, 2, 0, 0, 0, 1, 0x66, 0, 0, 0, 0, 0, 0, 0, 0, 0, 0, 0, 1,
    0x67, 0, 0, 0, 0, 0, 0, 0, 0, 0, 0, 0, 0,
];

// An internal function `f` without code, and the externals `g` and `h`.
const USES_ONE: [u8; 35] = [
    0x4c, 0x52, 0x4f, 0x42, 0, 1, 0, 0, 0, 1, 0, 0, 0, 1, 0x66, 0, 0, 0, 0, 0, 0, 0, 0, 0, 2, 0, 0,
    0, 1, 0x67, 0, 0, 0, 1, 0x68,
];

const USES: [u8; 37] = [
    0x4c, 0x52, 0x4f, 0x42, 0, 2, 0, 0, 0, 1, 0, 0, 0, 1, 0x66, 0, 0, 0, 0, 0, 0, 0, 0, 0, 0, 0, 2,
    0, 0, 0, 1, 0x67, 0, 0, 0, 1, 0x68,
];

// An internal function `f` with each instruction once, in the order of the opcodes.
const EACH_OPCODE_ONE: [u8; 74] = [
    0x4c, 0x52, 0x4f, 0x42, 0, 1, 0, 0, 0, 1, 0, 0, 0, 1, 0x66, 0, 0, 0, 1, 0, 49, 0x01, 0xff,
    0x02, 0x80, 0, 0, 0, 0, 0, 0, 0, 0x03, 0, 0x04, 0, 0x05, 0x06, 0x07, 0x08, 0x09, 0x0a, 0x0b,
    0x0c, 0x0d, 0x0e, 0x0f, 0x10, 0x11, 0x12, 0x13, 0, 0, 0, 0, 0x14, 0, 0, 0, 9, 0x15, 0, 0, 0, 0,
    0x16, 0x17, 0x18, 0x19, 0x1a, 0, 0, 0, 0,
];

const EACH_OPCODE: [u8; 76] = [
    0x4c, 0x52, 0x4f, 0x42, 0, 2, 0, 0, 0, 1, 0, 0, 0, 1, 0x66, 0, 0, 0, 1, 0, 0, 0, 49, 0x01,
    0xff, 0x02, 0x80, 0, 0, 0, 0, 0, 0, 0, 0x03, 0, 0x04, 0, 0x05, 0x06, 0x07, 0x08, 0x09, 0x0a,
    0x0b, 0x0c, 0x0d, 0x0e, 0x0f, 0x10, 0x11, 0x12, 0x13, 0, 0, 0, 0, 0x14, 0, 0, 0, 9, 0x15, 0, 0,
    0, 0, 0x16, 0x17, 0x18, 0x19, 0x1a, 0, 0, 0, 0,
];

// No function and no external.
const NOTHING: [u8; 14] = [0x4c, 0x52, 0x4f, 0x42, 0, 2, 0, 0, 0, 0, 0, 0, 0, 0];

// Objects in version 1, and the same in version 2.
const BOTH: [(&[u8], &[u8]); 5] = [
    (&PRINTS_7_ONE, &PRINTS_7),
    (&CALLS_ONE, &CALLS),
    (&TWO_ONE, &TWO),
    (&USES_ONE, &USES),
    (&EACH_OPCODE_ONE, &EACH_OPCODE),
];

fn written(alloc: Global, bytes: &[u8]) -> Result<Option<Bytes>, AllocError> {
    match read_object(alloc, bytes) {
        Ok(object) => Ok(Some(write_object(alloc, &object)?)),
        Err(_) => Ok(None),
    }
}

fn lifted(alloc: Global, bytes: &[u8]) -> Option<Bytes> {
    lift_object(alloc, bytes).ok()
}

#[test]
fn objects_of_both_versions_are_read_and_lifted(rt: HostRuntime) -> Result<(), Fail> {
    let alloc = rt.alloc();
    for (old, new) in BOTH {
        let read = written(alloc, old)?.ok_or("the bytes are an object")?;
        assert_eq!(rt; read.as_slice(), new);
        let again = written(alloc, new)?.ok_or("the bytes are an object")?;
        assert_eq!(rt; again.as_slice(), new);
        let lifted = lifted(alloc, old).ok_or("the bytes are an object of version 1")?;
        assert_eq!(rt; lifted.as_slice(), new);
    }
    let nothing = written(alloc, &NOTHING)?.ok_or("the bytes are an object")?;
    assert_eq!(rt; nothing.as_slice(), NOTHING.as_slice());
    Ok(())
}

#[test]
fn an_object_has_what_was_read(rt: HostRuntime) -> Result<(), Fail> {
    let object = read_object(rt.alloc(), &CALLS)
        .ok()
        .ok_or("the bytes are an object")?;
    let functions = object.functions();
    assert_eq!(rt; functions.len(), 2);
    assert_eq!(rt; functions[0].symbol().as_str(), "main::main");
    assert!(rt; functions[0].is_external());
    assert!(rt; !functions[1].is_external());
    assert_eq!(rt; functions[1].slots(), 1);
    assert_eq!(rt; functions[1].code(), [3, 0, 1, 1, 6, 0x16, 0x18].as_slice());
    let externals = object.externals();
    assert_eq!(rt; externals.len(), 1);
    assert_eq!(rt; externals[0].as_str(), "b::go");
    Ok(())
}

fn fault_of(alloc: Global, bytes: &[u8]) -> Option<BadFile> {
    match read_object(alloc, bytes) {
        Err(OrMemory::Refused(fault)) => Some(fault),
        _ => None,
    }
}

fn fault_of_lifting(alloc: Global, bytes: &[u8]) -> Option<BadFile> {
    match lift_object(alloc, bytes) {
        Err(OrMemory::Refused(fault)) => Some(fault),
        _ => None,
    }
}

// The place of the field that each strict prefix cuts, by its length.
const CUT_AT_ONE: [u64; 38] = [
    0, 0, 0, 0, 4, 4, 6, 6, 6, 6, 10, 10, 10, 10, 14, 14, 14, 14, 14, 14, 14, 14, 14, 14, 24, 25,
    26, 27, 28, 28, 30, 30, 30, 30, 34, 34, 34, 34,
];

const CUT_AT: [u64; 40] = [
    0, 0, 0, 0, 4, 4, 6, 6, 6, 6, 10, 10, 10, 10, 14, 14, 14, 14, 14, 14, 14, 14, 14, 14, 24, 25,
    26, 27, 28, 28, 28, 28, 32, 32, 32, 32, 36, 36, 36, 36,
];

#[test]
fn each_strict_prefix_is_short(rt: HostRuntime) -> Result<(), Fail> {
    let rows: [(&[u8], &[u64]); 2] = [(&PRINTS_7_ONE, &CUT_AT_ONE), (&PRINTS_7, &CUT_AT)];
    for (bytes, places) in rows {
        for (len, at) in places.iter().enumerate() {
            let fault = BadFile {
                at: *at,
                what: What::Short,
            };
            assert_eq!(rt;
                fault_of(rt.alloc(), bytes.get(..len).unwrap_or(bytes)),
                Some(fault)
            );
        }
    }
    Ok(())
}

// An object, a byte of it that is changed, what stands there then, and the fault. An index behind the last puts one byte more.
const CHANGED: [(&[u8], usize, u8, u64, What); 44] = [
    (&PRINTS_7_ONE, 3, 0x58, 0, What::Magic),
    (&PRINTS_7_ONE, 4, 1, 4, What::Version),
    (&PRINTS_7_ONE, 5, 3, 4, What::Version),
    (&PRINTS_7_ONE, 6, 1, 38, What::Symbol),
    (&PRINTS_7_ONE, 9, 2, 38, What::Symbol),
    (&PRINTS_7_ONE, 9, 0, 18, What::Short),
    (&PRINTS_7_ONE, 13, 0, 14, What::Symbol),
    (&PRINTS_7_ONE, 13, 9, 23, What::Kind),
    (&PRINTS_7_ONE, 14, 0x20, 14, What::Symbol),
    (&PRINTS_7_ONE, 24, 2, 24, What::Kind),
    (&PRINTS_7_ONE, 28, 1, 30, What::Short),
    (&PRINTS_7_ONE, 29, 3, 37, What::Short),
    (&PRINTS_7_ONE, 29, 5, 34, What::Code),
    (&PRINTS_7_ONE, 30, 0x00, 30, What::Code),
    (&PRINTS_7_ONE, 33, 0x1b, 33, What::Code),
    (&PRINTS_7_ONE, 37, 1, 38, What::Short),
    (&PRINTS_7_ONE, 38, 0, 38, What::Trailing),
    (&TWO_ONE, 25, 0x66, 25, What::Symbol),
    (&USES_ONE, 24, 1, 30, What::Trailing),
    (&CALLS_ONE, 42, 3, 39, What::Call),
    (&PRINTS_7, 0, 0x4d, 0, What::Magic),
    (&PRINTS_7, 5, 0, 4, What::Version),
    (&PRINTS_7, 5, 3, 4, What::Version),
    (&PRINTS_7, 10, 1, 14, What::Short),
    (&PRINTS_7, 13, 11, 14, What::Symbol),
    (&PRINTS_7, 18, 0x00, 14, What::Symbol),
    (&PRINTS_7, 20, 0x80, 14, What::Symbol),
    (&PRINTS_7, 23, 0x7f, 14, What::Symbol),
    (&PRINTS_7, 24, 2, 24, What::Kind),
    (&PRINTS_7, 28, 1, 28, What::Code),
    (&PRINTS_7, 29, 1, 32, What::Short),
    (&PRINTS_7, 31, 3, 39, What::Short),
    (&PRINTS_7, 34, 0x15, 34, What::Code),
    (&PRINTS_7, 39, 1, 40, What::Short),
    (&PRINTS_7, 40, 0, 40, What::Trailing),
    (&TWO, 27, 0x66, 27, What::Symbol),
    (&TWO, 9, 3, 40, What::Symbol),
    (&USES, 31, 0x66, 31, What::Symbol),
    (&USES, 36, 0x67, 36, What::Symbol),
    (&USES, 26, 1, 32, What::Trailing),
    (&USES, 26, 3, 37, What::Short),
    (&CALLS, 38, 3, 35, What::Call),
    (&CALLS, 44, 3, 41, What::Call),
    (&CALLS, 77, 0, 78, What::Trailing),
];

fn changed(alloc: Global, bytes: &[u8], index: usize, byte: u8) -> Result<Vec<u8>, AllocError> {
    let mut bytes = bytes.to_vec(alloc)?;
    match bytes.get_mut(index) {
        Some(place) => *place = byte,
        None => bytes.push(byte)?,
    }
    Ok(bytes)
}

// What lifting refuses, and how: bytes of version 2 by their version, and others as reading does.
fn lifting_fault(bytes: &[u8], fault: BadFile) -> BadFile {
    if fault.at > 4 && bytes.get(5) == Some(&2) {
        return BadFile {
            at: 4,
            what: What::Version,
        };
    }
    fault
}

#[test]
fn each_changed_byte_is_refused(rt: HostRuntime) -> Result<(), Fail> {
    for (bytes, index, byte, at, what) in &CHANGED {
        let bytes = changed(rt.alloc(), bytes, *index, *byte)?;
        let fault = BadFile {
            at: *at,
            what: *what,
        };
        assert_eq!(rt;
            fault_of(rt.alloc(), &bytes),
            Some(fault),
            "byte {index}, {byte}"
        );
        let lifting = lifting_fault(&bytes, fault);
        assert_eq!(rt;
            fault_of_lifting(rt.alloc(), &bytes),
            Some(lifting),
            "byte {index}, {byte}"
        );
    }
    Ok(())
}

// The rule of calls is looked at last: a call without a callee, before a byte behind the last external and before another kind.
#[test]
fn calls_are_looked_at_last(rt: HostRuntime) -> Result<(), Fail> {
    let alloc = rt.alloc();
    let no_callee = changed(alloc, &CALLS, 44, 3)?;
    let rows: [(usize, u8, u64, What); 3] = [
        (87, 0, 87, What::Trailing),
        (59, 2, 59, What::Kind),
        (38, 4, 35, What::Call),
    ];
    for (index, byte, at, what) in rows {
        let bytes = changed(alloc, &no_callee, index, byte)?;
        assert_eq!(rt; fault_of(alloc, &bytes), Some(BadFile { at, what }));
    }
    Ok(())
}
