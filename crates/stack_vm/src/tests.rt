use crate::{End, Valid, run, validate};
use lar_bytes::OrMemory;
use object_format::{BadFile, image_version, read_image};
use sinks::MemorySink;
use std::alloc::{AllocError, Global};

mod limits;
mod refusals;
mod runs;

// How a run ended, and what it printed.
#[derive(Drop)]
pub struct Ran {
    pub end: End,
    pub text: Vec<u8>,
}

// An image, in this version, of one function without params and result.
pub fn alone_in(alloc: Global, version: u8, slots: u8, code: &[u8]) -> Result<Vec<u8>, AllocError> {
    let mut bytes = Vec::from_slice(alloc, b"LRPX\x00")?;
    bytes.push(version)?;
    bytes.extend_from_slice(b"\x00\x00\x00\x00\x00\x00\x00\x01\x00\x00")?;
    bytes.push(slots)?;
    if version != 1 {
        bytes.extend_from_slice(&[0, 0])?;
    }
    bytes.extend_from_slice(&u16::try_from(code.len()).unwrap_or(0).to_be_bytes())?;
    bytes.extend_from_slice(code)?;
    Ok(bytes)
}

pub fn alone(alloc: Global, slots: u8, code: &[u8]) -> Result<Vec<u8>, AllocError> {
    alone_in(alloc, 1, slots, code)
}

fn validated(alloc: Global, bytes: &[u8]) -> Option<Result<Valid, OrMemory<BadFile>>> {
    match read_image(alloc, bytes) {
        Ok(image) => Some(validate(alloc, image, image_version(bytes))),
        Err(_) => None,
    }
}

pub fn valid_of(alloc: Global, bytes: &[u8]) -> Option<Valid> {
    match validated(alloc, bytes)? {
        Ok(valid) => Some(valid),
        Err(_) => None,
    }
}

// The first fault of the image that the bytes spell.
pub fn fault_of(alloc: Global, bytes: &[u8]) -> Option<BadFile> {
    match validated(alloc, bytes)? {
        Err(OrMemory::Refused(fault)) => Some(fault),
        _ => None,
    }
}

pub fn run_with(
    alloc: Global,
    bytes: &[u8],
    steps: u64,
    failing: &[u64],
) -> Result<Option<Ran>, AllocError> {
    let Some(mut valid) = valid_of(alloc, bytes) else {
        return Ok(None);
    };
    valid.reserve(alloc)?;
    let mut sink = MemorySink::new(alloc, failing)?;
    let end = run(alloc, &mut valid, steps, &mut sink);
    let text = sink.bytes().to_vec(alloc)?;
    Ok(Some(Ran { end, text }))
}

// 7, printed.
pub const PRINTS_7: [u8; 4] = [0x01, 0x07, 0x17, 0x16];

// Function 0 prints 20 minus 7, which function 1 takes in this order, and then function 1's slot 2.
pub const CALLS: [u8; 61] = [
    0x4c, 0x52, 0x50, 0x58, 0, 1, 0, 0, 0, 0, 0, 0, 0, 2, 0, 0, 0, 0, 23, 0x01, 20, 0x01, 7, 0x15,
    0, 0, 0, 1, 0x17, 0x17, 0x01, 1, 0x01, 1, 0x15, 0, 0, 0, 1, 0x17, 0x17, 0x16, 2, 2, 3, 0, 14,
    0x03, 2, 0x01, 9, 0x04, 2, 0x03, 0, 0x03, 1, 0x07, 0x16, 0x1a, 0x18,
];
