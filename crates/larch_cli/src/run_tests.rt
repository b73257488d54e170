use super::*;
use files::MemoryFiles;
use lar_bytes::{Bytes, Text};
use lar_tree::File;
use sinks::MemorySink;
use std::alloc::{AllocError, Global};
use std::test::Fail;

// `fn main() { print(7); }` in version 1 of the format.
const SEVEN: [u8; 23] = [
    0x4c, 0x52, 0x50, 0x58, 0, 1, 0, 0, 0, 0, 0, 0, 0, 1, 0, 0, 0, 0, 4, 1, 7, 0x17, 0x16,
];

// PUSH8 1, PUSH8 0, DIV, POP, RET.
const DIVIDES: [u8; 26] = [
    0x4c, 0x52, 0x50, 0x58, 0, 1, 0, 0, 0, 0, 0, 0, 0, 1, 0, 0, 0, 0, 7, 1, 1, 1, 0, 9, 5, 0x16,
];

// POP, RET.
const POPS: [u8; 21] = [
    0x4c, 0x52, 0x50, 0x58, 0, 1, 0, 0, 0, 0, 0, 0, 0, 1, 0, 0, 0, 0, 2, 5, 0x16,
];

// What a run left: its number and both streams.
#[derive(Drop)]
struct Left {
    number: u8,
    out: Vec<u8>,
    err: Vec<u8>,
}

fn run(
    alloc: Global,
    words: &[&str],
    image: &[u8],
    files: &[u64],
    out: &[u64],
) -> Result<Left, AllocError> {
    let mut owned = Vec::new(alloc);
    for word in words {
        owned.push(word.to_string(alloc)?)?;
    }
    let image = File {
        name: Text::copied(alloc, "a.lrpx")?,
        bytes: Bytes::copied(alloc, image)?,
    };
    let mut files = MemoryFiles::new(alloc, &[image], files)?;
    let mut out = MemorySink::new(alloc, out)?;
    let mut err = MemorySink::new(alloc, &[])?;
    let status = larch_plain(alloc, &owned, None, &mut files, &mut out, &mut err);
    Ok(Left {
        number: status.number(),
        out: out.bytes().to_vec(alloc)?,
        err: err.bytes().to_vec(alloc)?,
    })
}

#[test]
fn images_are_run(rt: HostRuntime) -> Result<(), Fail> {
    let alloc = rt.alloc();
    let plain: &[&str] = &["run", "a.lrpx"];
    let cases: [(&[&str], &[u8], u8, &str, &str); 12] = [
        (plain, &SEVEN, 0, "7\n", ""),
        (&["run", "a.lrpx", "--steps", "3"], &SEVEN, 0, "7\n", ""),
        (
            &["run", "a.lrpx", "--steps", "2"],
            &SEVEN,
            12,
            "7\n",
            "larchc: out of steps\n",
        ),
        (
            &["run", "a.lrpx", "--steps", "0000000000000000001"],
            &SEVEN,
            12,
            "",
            "larchc: out of steps\n",
        ),
        (&["run", "--steps=3", "a.lrpx"], &SEVEN, 0, "7\n", ""),
        (&["run", "--", "a.lrpx"], &SEVEN, 0, "7\n", ""),
        (
            &["run", "--steps", "2", "--", "a.lrpx"],
            &SEVEN,
            12,
            "7\n",
            "larchc: out of steps\n",
        ),
        (plain, &DIVIDES, 11, "", "larchc: trap division at 0:4\n"),
        (
            plain,
            &POPS,
            9,
            "",
            "larchc: a.lrpx: bad file at 19: height\n",
        ),
        (
            plain,
            &[0x4c, 0x52, 0x50, 0x58],
            9,
            "",
            "larchc: a.lrpx: bad file at 4: short\n",
        ),
        (
            &["run", "b.lrpx"],
            &SEVEN,
            3,
            "",
            "larchc: b.lrpx: not found\n",
        ),
        (
            &["run", "a.lrpx", "--steps", "1000000000000"],
            &SEVEN,
            0,
            "7\n",
            "",
        ),
    ];
    for (words, image, number, out, err) in cases {
        let left = run(alloc, words, image, &[], &[])?;
        assert_eq!(rt; left.number, number, "wanting {err}");
        assert_eq!(rt; left.out.as_slice(), out.as_bytes(), "wanting {err}");
        assert_eq!(rt; left.err.as_slice(), err.as_bytes());
    }
    Ok(())
}

#[test]
fn a_run_that_meets_a_fault_says_so(rt: HostRuntime) -> Result<(), Fail> {
    let alloc = rt.alloc();
    let left = run(alloc, &["run", "a.lrpx"], &SEVEN, &[0], &[])?;
    assert_eq!(rt; left.number, 4);
    assert_eq!(rt;
        left.err.as_slice(),
        b"larchc: a.lrpx: file fault\n".as_slice()
    );
    let left = run(alloc, &["run", "a.lrpx"], &SEVEN, &[], &[0])?;
    assert_eq!(rt; left.number, 6);
    assert_eq!(rt; left.out.as_slice(), b"".as_slice());
    Ok(())
}
