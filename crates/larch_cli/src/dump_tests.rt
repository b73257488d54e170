use super::*;
use files::{Files, MemoryFiles};
use sinks::MemorySink;
use std::alloc::{AllocError, Global};
use std::process::Abort;
use std::test::Fail;

// One function, external `main::main` of PUSH8 7, PRINT and RET, and no external.
pub(crate) const UNIT: [u8; 38] = [
    0x4c, 0x52, 0x4f, 0x42, 0, 1, 0, 0, 0, 1, 0, 0, 0, 10, 0x6d, 0x61, 0x69, 0x6e, 0x3a, 0x3a,
    0x6d, 0x61, 0x69, 0x6e, 1, 0, 0, 0, 0, 4, 1, 7, 0x17, 0x16, 0, 0, 0, 0,
];

// The image of the same.
pub(crate) const SEVEN: [u8; 23] = [
    0x4c, 0x52, 0x50, 0x58, 0, 1, 0, 0, 0, 0, 0, 0, 0, 1, 0, 0, 0, 0, 4, 1, 7, 0x17, 0x16,
];

// Internal `f` with each opcode once, in their order, and the external `g`.
const ALL: [u8; 79] = [
    0x4c, 0x52, 0x4f, 0x42, 0, 1, 0, 0, 0, 1, 0, 0, 0, 1, 0x66, 0, 1, 2, 3, 0, 49, 1, 0xff, 2,
    0x80, 0, 0, 0, 0, 0, 0, 0, 3, 0xff, 4, 0, 5, 6, 7, 8, 9, 10, 11, 12, 13, 14, 15, 16, 17, 18,
    19, 0xff, 0xff, 0xff, 0xff, 20, 0, 0, 0, 0, 21, 0, 0, 0, 1, 22, 23, 24, 25, 26, 0, 0, 0, 1, 0,
    0, 0, 1, 0x67,
];

const ALL_LISTED: &str = "fn 0 f internal params 1 result 2 slots 3 code 49
  0 PUSH8 -1
  2 PUSH64 -9223372036854775808
  11 LOAD 255
  13 STORE 0
  15 POP
  16 ADD
  17 SUB
  18 MUL
  19 DIV
  20 REM
  21 NEG
  22 EQ
  23 NE
  24 LT
  25 LE
  26 GT
  27 GE
  28 NOT
  29 JMP 4294967295
  34 JZ 0
  39 CALL 1
  44 RET
  45 PRINT
  46 TRAP
  47 DUP
  48 NOP
use 1 g
";

// What a command left: its number, both streams, and the image, if there is one.
#[derive(Drop)]
pub(crate) struct Left {
    pub number: u8,
    pub out: Vec<u8>,
    pub err: Vec<u8>,
    pub image: Option<Vec<u8>>,
}

/// Runs a command over files in memory. They are written first, so that the calls of the command itself have numbers from the count of
/// files on.
pub(crate) fn play(
    alloc: Global,
    words: &[&str],
    contents: &[(&str, &[u8])],
    failing: &[u64],
    failing_puts: &[u64],
) -> Result<Left, AllocError> {
    let mut owned = Vec::new(alloc);
    for word in words {
        owned.push(word.to_string(alloc)?)?;
    }
    let mut files = MemoryFiles::new(alloc, &[], failing)?;
    for (name, bytes) in contents {
        let _ = files.write(alloc, name, bytes);
    }
    let mut out = MemorySink::new(alloc, failing_puts)?;
    let mut err = MemorySink::new(alloc, &[])?;
    let status = larch_plain(alloc, &owned, None, &mut files, &mut out, &mut err);
    let image = match files.held("a.lrpx") {
        Some(bytes) => Some(bytes.to_vec(alloc)?),
        None => None,
    };
    Ok(Left {
        number: status.number(),
        out: out.bytes().to_vec(alloc)?,
        err: err.bytes().to_vec(alloc)?,
        image,
    })
}

pub(crate) fn check(
    rt: &impl Abort,
    left: &Left,
    number: u8,
    out: &str,
    err: &str,
    image: Option<&[u8]>,
) {
    assert_eq!(rt; left.number, number, "wanting {err}");
    assert_eq!(rt; left.out.as_slice(), out.as_bytes());
    assert_eq!(rt; left.err.as_slice(), err.as_bytes());
    match (&left.image, image) {
        (Some(left), Some(wanted)) => assert_eq!(rt; left.as_slice(), wanted),
        (None, None) => {}
        _ => panic!(rt; "an image that is not wanted, or none where one is"),
    }
}

#[test]
fn listings_are_put(rt: HostRuntime) -> Result<(), Fail> {
    let alloc = rt.alloc();
    let cases: [(&[u8], &str); 3] = [
        (
            &SEVEN,
            "entry 0\nfn 0 params 0 result 0 slots 0 code 4\n  0 PUSH8 7\n  2 PRINT\n  3 RET\n",
        ),
        (
            &UNIT,
            "fn 0 main::main external params 0 result 0 slots 0 code 4\n  0 PUSH8 7\n  2 PRINT\n  3 RET\n",
        ),
        (&ALL, ALL_LISTED),
    ];
    for (bytes, listing) in cases {
        let left = play(alloc, &["dump", "a"], &[("a", bytes)], &[], &[])?;
        check(&rt, &left, 0, listing, "", None);
    }
    Ok(())
}

#[test]
fn a_dump_that_meets_a_fault_says_so(rt: HostRuntime) -> Result<(), Fail> {
    let alloc = rt.alloc();
    let left = play(alloc, &["dump", "b"], &[("a", &SEVEN)], &[], &[])?;
    check(&rt, &left, 3, "", "larchc: b: not found\n", None);
    let left = play(alloc, &["dump", "a"], &[("a", &SEVEN)], &[1], &[])?;
    check(&rt, &left, 4, "", "larchc: a: file fault\n", None);
    let left = play(alloc, &["dump", "a"], &[("a", &SEVEN)], &[], &[0])?;
    check(&rt, &left, 6, "", "", None);
    Ok(())
}
