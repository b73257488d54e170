use super::dump_tests::{UNIT, check, play};
use super::tests::SEVEN;
use super::*;
use std::test::Fail;

// External `b::go`: PUSH8 2, CALL 1, PRINT, RET; internal `main::inc`: LOAD 0, PUSH8 1, ADD, RET, TRAP.
const GO: [u8; 64] = [
    0x4c, 0x52, 0x4f, 0x42, 0, 1, 0, 0, 0, 2, 0, 0, 0, 5, 0x62, 0x3a, 0x3a, 0x67, 0x6f, 1, 0, 0, 0,
    0, 9, 1, 2, 0x15, 0, 0, 0, 1, 0x17, 0x16, 0, 0, 0, 9, 0x6d, 0x61, 0x69, 0x6e, 0x3a, 0x3a, 0x69,
    0x6e, 0x63, 0, 1, 1, 1, 0, 7, 3, 0, 1, 1, 6, 0x16, 0x18, 0, 0, 0, 0,
];

// External `main::main`: PUSH8 1, CALL 1, PRINT, CALL 2, RET; internal `main::inc`; the external `b::go`.
const MAIN: [u8; 83] = [
    0x4c, 0x52, 0x4f, 0x42, 0, 1, 0, 0, 0, 2, 0, 0, 0, 10, 0x6d, 0x61, 0x69, 0x6e, 0x3a, 0x3a,
    0x6d, 0x61, 0x69, 0x6e, 1, 0, 0, 0, 0, 14, 1, 1, 0x15, 0, 0, 0, 1, 0x17, 0x15, 0, 0, 0, 2,
    0x16, 0, 0, 0, 9, 0x6d, 0x61, 0x69, 0x6e, 0x3a, 0x3a, 0x69, 0x6e, 0x63, 0, 1, 1, 1, 0, 7, 3, 0,
    1, 1, 6, 0x16, 0x18, 0, 0, 0, 1, 0, 0, 0, 5, 0x62, 0x3a, 0x3a, 0x67, 0x6f,
];

// GO's functions and then MAIN's; `main::main`, at place 2, calls places 3 and 0.
const LINKED: [u8; 79] = [
    0x4c, 0x52, 0x50, 0x58, 0, 2, 0, 0, 0, 2, 0, 0, 0, 4, 0, 0, 0, 0, 0, 0, 9, 1, 2, 0x15, 0, 0, 0,
    1, 0x17, 0x16, 1, 1, 1, 0, 0, 0, 7, 3, 0, 1, 1, 6, 0x16, 0x18, 0, 0, 0, 0, 0, 0, 14, 1, 1,
    0x15, 0, 0, 0, 3, 0x17, 0x15, 0, 0, 0, 0, 0x16, 1, 1, 1, 0, 0, 0, 7, 3, 0, 1, 1, 6, 0x16, 0x18,
];

// No function and no external.
const NOTHING: [u8; 14] = [0x4c, 0x52, 0x4f, 0x42, 0, 1, 0, 0, 0, 0, 0, 0, 0, 0];

#[test]
fn objects_are_linked(rt: HostRuntime) -> Result<(), Fail> {
    let alloc = rt.alloc();
    let contents: [(&str, &[u8]); 2] = [("b.lrob", &GO), ("m.lrob", &MAIN)];
    let left = play(alloc, &["link", "b.lrob", "m.lrob"], &contents, &[], &[])?;
    check(&rt, &left, 0, "functions 4\n", "", Some(&LINKED));
    let words = ["link", "--out=a.lrpx", "--", "unit0.lrob"];
    let left = play(alloc, &words, &[("unit0.lrob", &UNIT)], &[], &[])?;
    check(&rt, &left, 0, "functions 1\n", "", Some(&SEVEN));
    Ok(())
}

#[test]
fn refused_links_write_nothing(rt: HostRuntime) -> Result<(), Fail> {
    let alloc = rt.alloc();
    let contents: [(&str, &[u8]); 4] = [
        ("u", &UNIT),
        ("m", &MAIN),
        ("n", &NOTHING),
        ("x", &UNIT[..37]),
    ];
    let cases: [(&[&str], u8, &str); 8] = [
        (
            &["link", "u", "u"],
            10,
            "larchc: link: main::main defined in 0 and 1\n",
        ),
        (&["link", "m"], 10, "larchc: link: b::go undefined in 0\n"),
        (&["link", "n"], 10, "larchc: link: no entry\n"),
        // The first bad file, in the order of the words.
        (
            &["link", "u", "x", "u"],
            9,
            "larchc: x: bad file at 34: short\n",
        ),
        // A file that is not there, behind a bad one.
        (&["link", "x", "b"], 3, "larchc: b: not found\n"),
        (&["link"], 2, "larchc: usage\n"),
        (&["link", "u", "--out", ".a"], 2, "larchc: usage\n"),
        (
            &["link", "u", "--out", "a", "--out", "b"],
            2,
            "larchc: usage\n",
        ),
    ];
    for (words, number, err) in cases {
        let left = play(alloc, words, &contents, &[], &[])?;
        check(&rt, &left, number, "", err, None);
    }
    Ok(())
}

#[test]
fn a_link_that_meets_a_fault_says_so(rt: HostRuntime) -> Result<(), Fail> {
    let alloc = rt.alloc();
    let contents: [(&str, &[u8]); 2] = [("b", &GO), ("m", &MAIN)];
    let words = ["link", "b", "m"];
    // Calls 0 and 1 write the files, 2 and 3 read them, 4 writes the image.
    let left = play(alloc, &words, &contents, &[3], &[])?;
    check(&rt, &left, 4, "", "larchc: m: file fault\n", None);
    let left = play(alloc, &words, &contents, &[4], &[])?;
    check(&rt, &left, 4, "", "larchc: a.lrpx: file fault\n", None);
    let left = play(alloc, &words, &contents, &[], &[0])?;
    check(&rt, &left, 6, "", "", Some(&LINKED));
    Ok(())
}

#[test]
fn a_link_that_is_too_large_says_so(rt: HostRuntime) -> Result<(), Fail> {
    let line = Status::LinkFault(symbol_link::LinkFault::TooLarge).line(rt.alloc())?;
    let wanted = b"larchc: link: image over 67108864 bytes\n";
    assert_eq!(rt; line.as_slice(), wanted.as_slice());
    Ok(())
}
