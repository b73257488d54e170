use super::*;
use lar_bytes::{OrMemory, Text};
use object_format::{BadFile, What};
use std::alloc::{AllocError, Global};
use std::test::Fail;

// The text of the input of `fn main() { print(7); }`.
const TEXT: [u8; 51] = [
    0x4c, 0x52, 0x55, 0x49, 0, 1, 1, 0, 0, 0, 1, 0, 0, 0, 0x0a, 0x6d, 0x61, 0x69, 0x6e, 0x3a, 0x3a,
    0x6d, 0x61, 0x69, 0x6e, 1, 0, 0, 0, 0, 0, 0, 0, 0, 0, 0, 1, 6, 1, 0, 0, 0, 0, 0, 0, 0, 7, 0, 0,
    0, 0,
];

// Its object in version 2, and in version 1.
const OBJECT: [u8; 40] = [
    0x4c, 0x52, 0x4f, 0x42, 0, 2, 0, 0, 0, 1, 0, 0, 0, 0x0a, 0x6d, 0x61, 0x69, 0x6e, 0x3a, 0x3a,
    0x6d, 0x61, 0x69, 0x6e, 1, 0, 0, 0, 0, 0, 0, 4, 1, 7, 0x17, 0x16, 0, 0, 0, 0,
];

const OLD_OBJECT: [u8; 38] = [
    0x4c, 0x52, 0x4f, 0x42, 0, 1, 0, 0, 0, 1, 0, 0, 0, 0x0a, 0x6d, 0x61, 0x69, 0x6e, 0x3a, 0x3a,
    0x6d, 0x61, 0x69, 0x6e, 1, 0, 0, 0, 0, 4, 1, 7, 0x17, 0x16, 0, 0, 0, 0,
];

// The last 32 bytes of their records, as another program computes them.
const DIGEST: [u8; 32] = [
    0x28, 0xec, 0xbb, 0x23, 0x35, 0xf4, 0xe9, 0x76, 0xb6, 0x20, 0x38, 0x3c, 0x82, 0x78, 0x9f, 0x20,
    0x3d, 0xe0, 0xdc, 0xdf, 0x6d, 0xba, 0x19, 0x71, 0x3b, 0xb3, 0xb9, 0x49, 0x70, 0xd1, 0x7a, 0xa7,
];

const OLD_DIGEST: [u8; 32] = [
    0x28, 0xe2, 0xb7, 0xf5, 0x69, 0xbf, 0x12, 0xb0, 0x9e, 0xa5, 0xf4, 0xdb, 0xe3, 0x8a, 0xc7, 0xfa,
    0x21, 0x37, 9, 0xdc, 0x50, 0x44, 0x98, 0x6e, 0xb1, 0xf2, 0x15, 0xbd, 0x13, 0x1b, 0xd8, 0x6b,
];

const NAME: &str = "9bde5c2060118d9f7f4863c6a00f68829849c8c2c2c0fb94c31d5821c927ec44";

// A record, part by part.
fn record_of_parts(
    alloc: Global,
    version: u8,
    object: &[u8],
    digest: &[u8],
) -> Result<Vec<u8>, AllocError> {
    let mut bytes = b"LRWP\x00".to_vec(alloc)?;
    bytes.extend_from_slice(&[version, 0, 0, 0, 51])?;
    bytes.extend_from_slice(&TEXT)?;
    bytes.extend_from_slice(&[0, 0, 0, (object.len() % 256) as u8])?;
    bytes.extend_from_slice(object)?;
    bytes.extend_from_slice(digest)?;
    Ok(bytes)
}

// What is found for the text, as a word, or the object.
fn found(alloc: Global, keeper: &mut MemoryKeeper) -> Result<Vec<u8>, AllocError> {
    match find(alloc, keeper, &TEXT)? {
        Found::Whole(object) => Ok(object.into_vec()),
        Found::Absent => b"absent".to_vec(alloc),
        Found::Damaged => b"damaged".to_vec(alloc),
        Found::StoreFault => b"fault".to_vec(alloc),
    }
}

// What is found where the name of the text holds these bytes.
fn found_of(alloc: Global, bytes: &[u8]) -> Result<Vec<u8>, AllocError> {
    let mut keeper = MemoryKeeper::new(alloc, &[], &[])?;
    let _ = keeper.save(alloc, NAME, bytes);
    found(alloc, &mut keeper)
}

// How many strict prefixes of a record, and records with one byte changed, are not damaged.
fn undamaged(alloc: Global, bytes: &[u8]) -> Result<usize, AllocError> {
    let mut count = 0usize;
    let mut changed = bytes.to_vec(alloc)?;
    for place in 0..bytes.len() {
        changed[place] ^= 1;
        if found_of(alloc, changed.as_slice())?.as_slice() != b"damaged".as_slice() {
            count = count.saturating_add(1);
        }
        changed[place] ^= 1;
        if found_of(alloc, &bytes[..place])?.as_slice() != b"damaged".as_slice() {
            count = count.saturating_add(1);
        }
    }
    Ok(count)
}

// Where reading stops and why.
fn fault_of(alloc: Global, bytes: &[u8]) -> Option<BadFile> {
    match read_record(alloc, bytes) {
        Err(OrMemory::Refused(fault)) => Some(fault),
        _ => None,
    }
}

#[test]
fn records_of_both_versions(rt: HostRuntime) -> Result<(), Fail> {
    let alloc = rt.alloc();
    let written = match write_record(alloc, &TEXT, &OBJECT) {
        Ok(bytes) => bytes.into_vec(),
        Err(_) => Vec::new(alloc),
    };
    let new = record_of_parts(alloc, 2, &OBJECT, &DIGEST)?;
    let old = record_of_parts(alloc, 1, &OLD_OBJECT, &OLD_DIGEST)?;
    assert_eq!(rt; written.as_slice(), new.as_slice());
    assert_eq!(rt; (new.len(), old.len()), (137, 135));
    for bytes in [new.as_slice(), old.as_slice()] {
        assert_eq!(rt; found_of(alloc, bytes)?.as_slice(), OBJECT.as_slice());
        assert_eq!(rt; undamaged(alloc, bytes)?, 0);
    }
    Ok(())
}

#[test]
fn the_first_fault_of_a_record(rt: HostRuntime) -> Result<(), Fail> {
    let alloc = rt.alloc();
    let mut bytes = record_of_parts(alloc, 2, &OBJECT, &DIGEST)?;
    let cut = [
        (3usize, 0u64),
        (5, 4),
        (9, 6),
        (60, 10),
        (64, 61),
        (104, 65),
        (136, 105),
    ];
    for (len, at) in cut {
        let fault = fault_of(alloc, &bytes[..len.min(bytes.len())]);
        let short = What::Short;
        assert!(rt; fault == Some(BadFile { at, what: short }), "at {len}");
    }
    bytes.push(0)?;
    let trailing = BadFile {
        at: 137,
        what: What::Trailing,
    };
    assert!(rt; fault_of(alloc, bytes.as_slice()) == Some(trailing));
    Ok(())
}

// Names of which the first alone is to be removed: the fingerprint of the empty text, one with digits of upper case, two that no record
// can have, and the one that is wanted.
const NAMES: [&str; 5] = [
    "e3b0c44298fc1c149afbf4c8996fb92427ae41e4649b934ca495991b7852b855",
    "3E23E8160039594A33894F6564E1B1348BBD7A0088D42C4ACB73EEAED59C009D",
    "foreign",
    "9bde5c2060118d9f7f4863c6a00f68829849c8c2c2c0fb94c31d5821c927ec4",
    NAME,
];

#[test]
fn a_store_keeps_and_finds(rt: HostRuntime) -> Result<(), Fail> {
    let alloc = rt.alloc();
    let mut keeper = MemoryKeeper::new(alloc, &[], &[0, 2, 4])?;
    for wanted in ["fault", "absent"] {
        assert_eq!(rt; found(alloc, &mut keeper)?.as_slice(), wanted.as_bytes());
    }
    for (leaving, after) in [(10, b"damaged".as_slice()), (1000, OBJECT.as_slice())] {
        keeper.leaving(leaving);
        assert_eq!(rt; keep(alloc, &mut keeper, &TEXT, &OBJECT)?, Kept::StoreFault);
        assert_eq!(rt; found(alloc, &mut keeper)?.as_slice(), after);
    }
    assert_eq!(rt; keep(alloc, &mut keeper, &TEXT, &OBJECT)?, Kept::Done);
    Ok(())
}

#[test]
fn a_store_is_pruned(rt: HostRuntime) -> Result<(), Fail> {
    let alloc = rt.alloc();
    let mut keeper = MemoryKeeper::new(alloc, &[], &[])?;
    for name in NAMES {
        assert_eq!(rt; keeper.save(alloc, name, b"x"), Saved::Done);
    }
    assert!(rt; NAME.is_ascii());
    let names = [Text::copied(alloc, NAME)?];
    assert_eq!(rt; prune(alloc, &mut keeper, &names)?, Kept::Done);
    for (place, name) in NAMES.iter().enumerate() {
        assert_eq!(rt; keeper.held(name).is_some(), place > 0, "at {place}");
    }
    Ok(())
}
