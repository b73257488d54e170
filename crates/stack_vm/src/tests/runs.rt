use super::{CALLS, PRINTS_7, alone, run_with};
use crate::{End, Kind};
use std::test::Fail;

// The least number printed, and that by -1: the division stands at 21 and is the fifth step.
const LEAST: [u8; 24] = [
    0x02, 0x80, 0, 0, 0, 0, 0, 0, 0, 0x17, 0x02, 0x80, 0, 0, 0, 0, 0, 0, 0, 0x01, 0xff, 0x09, 0x17,
    0x16,
];

// Slots, code, the most steps, and how the run ends with which text.
const RUNS: [(u8, &[u8], u64, End, &str); 24] = [
    (0, &PRINTS_7, 3, End::Ended, "7\n"),
    (0, &PRINTS_7, 2, End::OutOfSteps, "7\n"),
    (0, &PRINTS_7, 1, End::OutOfSteps, ""),
    (0, &PRINTS_7, 0, End::OutOfSteps, ""),
    (
        0,
        &LEAST,
        5,
        End::Trapped {
            kind: Kind::Overflow,
            function: 0,
            offset: 21,
        },
        "-9223372036854775808\n",
    ),
    (
        0,
        &LEAST,
        100,
        End::Trapped {
            kind: Kind::Overflow,
            function: 0,
            offset: 21,
        },
        "-9223372036854775808\n",
    ),
    (0, &LEAST, 4, End::OutOfSteps, "-9223372036854775808\n"),
    (
        0,
        &[0x01, 1, 0x01, 0, 0x09, 0x05, 0x16],
        9,
        End::Trapped {
            kind: Kind::Division,
            function: 0,
            offset: 4,
        },
        "",
    ),
    (
        0,
        &[0x1a, 0x01, 1, 0x01, 0, 0x0a, 0x05, 0x16],
        9,
        End::Trapped {
            kind: Kind::Division,
            function: 0,
            offset: 5,
        },
        "",
    ),
    (
        0,
        &[0x1a, 0x18],
        9,
        End::Trapped {
            kind: Kind::Trap,
            function: 0,
            offset: 1,
        },
        "",
    ),
    // the least word by -1 has no rest either
    (
        0,
        &[
            0x02, 0x80, 0, 0, 0, 0, 0, 0, 0, 0x01, 0xff, 0x0a, 0x05, 0x16,
        ],
        9,
        End::Trapped {
            kind: Kind::Overflow,
            function: 0,
            offset: 11,
        },
        "",
    ),
    // calls itself for ever: 10,000 frames are there after 9,999 calls, and the next is one too many
    (0, &[0x15, 0, 0, 0, 0, 0x16], 9_999, End::OutOfSteps, ""),
    (
        0,
        &[0x15, 0, 0, 0, 0, 0x16],
        10_000,
        End::Trapped {
            kind: Kind::Depth,
            function: 0,
            offset: 0,
        },
        "",
    ),
    (0, &[0x01, 5, 0x0b, 0x17, 0x16], 9, End::Ended, "-5\n"),
    (0, &[0x01, 0, 0x12, 0x17, 0x16], 9, End::Ended, "1\n"),
    (0, &[0x01, 9, 0x12, 0x17, 0x16], 9, End::Ended, "0\n"),
    (3, &[0x03, 1, 0x17, 0x16], 9, End::Ended, "0\n"),
    (
        3,
        &[0x01, 8, 0x04, 2, 0x03, 2, 0x17, 0x16],
        9,
        End::Ended,
        "8\n",
    ),
    (
        0,
        &[0x01, 8, 0x19, 0x17, 0x17, 0x16],
        9,
        End::Ended,
        "8\n8\n",
    ),
    (
        0,
        &[0x01, 8, 0x01, 3, 0x05, 0x17, 0x16],
        9,
        End::Ended,
        "8\n",
    ),
    // the least number by its negation, and the greatest and one
    (
        0,
        &[0x02, 0x80, 0, 0, 0, 0, 0, 0, 0, 0x0b, 0x17, 0x16],
        9,
        End::Ended,
        "-9223372036854775808\n",
    ),
    (
        0,
        &[
            0x02, 0x7f, 0xff, 0xff, 0xff, 0xff, 0xff, 0xff, 0xff, 0x01, 1, 0x06, 0x17, 0x16,
        ],
        9,
        End::Ended,
        "-9223372036854775808\n",
    ),
    (0, &[0x13, 0, 0, 0, 6, 0x18, 0x16], 9, End::Ended, ""),
    // counts down from 3 by a jump back
    (
        1,
        &[
            0x01, 3, 0x04, 0, 0x03, 0, 0x14, 0, 0, 0, 26, 0x03, 0, 0x17, 0x03, 0, 0x01, 0xff, 0x06,
            0x04, 0, 0x13, 0, 0, 0, 4, 0x16,
        ],
        99,
        End::Ended,
        "3\n2\n1\n",
    ),
];

#[test]
fn programs_run(rt: HostRuntime) -> Result<(), Fail> {
    for (slots, code, steps, end, text) in &RUNS {
        let bytes = alone(rt.alloc(), *slots, code)?;
        let ran = run_with(rt.alloc(), &bytes, *steps, &[])?.ok_or("valid")?;
        assert_eq!(rt; ran.end, *end);
        assert_eq!(rt; ran.text.as_slice(), text.as_bytes());
    }
    Ok(())
}

// Two numbers, an opcode, and what is printed then.
const OF_TWO: [(u8, u8, u8, &str); 19] = [
    (5, 3, 0x06, "8\n"),
    (5, 3, 0x07, "2\n"),
    (0xfb, 3, 0x08, "-15\n"),
    (7, 2, 0x09, "3\n"),
    (0xf9, 2, 0x09, "-3\n"),
    (7, 2, 0x0a, "1\n"),
    (0xf9, 2, 0x0a, "-1\n"),
    (5, 5, 0x0c, "1\n"),
    (5, 3, 0x0c, "0\n"),
    (5, 3, 0x0d, "1\n"),
    (5, 5, 0x0d, "0\n"),
    (3, 5, 0x0e, "1\n"),
    (5, 5, 0x0e, "0\n"),
    (5, 5, 0x0f, "1\n"),
    (6, 5, 0x0f, "0\n"),
    (5, 3, 0x10, "1\n"),
    (5, 5, 0x10, "0\n"),
    (5, 5, 0x11, "1\n"),
    (3, 5, 0x11, "0\n"),
];

#[test]
fn opcodes_of_two_words(rt: HostRuntime) -> Result<(), Fail> {
    for (a, b, opcode, want) in &OF_TWO {
        let code = [0x01, *a, 0x01, *b, *opcode, 0x17, 0x16];
        let bytes = alone(rt.alloc(), 0, &code)?;
        let ran = run_with(rt.alloc(), &bytes, 9, &[])?.ok_or("valid")?;
        assert_eq!(rt;
            ran.text.as_slice(),
            want.as_bytes(),
            "{opcode} of {a} and {b}"
        );
    }
    Ok(())
}

#[test]
fn a_put_that_fails_ends_the_run(rt: HostRuntime) -> Result<(), Fail> {
    let bytes = alone(rt.alloc(), 0, &PRINTS_7)?;
    let ran = run_with(rt.alloc(), &bytes, 9, &[0])?.ok_or("valid")?;
    assert_eq!(rt; ran.end, End::WriteFault);
    assert_eq!(rt; ran.text.as_slice(), b"".as_slice());
    Ok(())
}

#[test]
fn a_call_has_its_own_slots(rt: HostRuntime) -> Result<(), Fail> {
    let ran = run_with(rt.alloc(), &CALLS, 100, &[])?.ok_or("valid")?;
    assert_eq!(rt; ran.end, End::Ended);
    assert_eq!(rt; ran.text.as_slice(), b"13\n0\n0\n0\n".as_slice());
    Ok(())
}

// Function 0 calls function 1, which traps behind a NOP.
const TRAPS: [u8; 32] = [
    0x4c, 0x52, 0x50, 0x58, 0, 1, 0, 0, 0, 0, 0, 0, 0, 2, 0, 0, 0, 0, 6, 0x15, 0, 0, 0, 1, 0x16, 0,
    0, 0, 0, 2, 0x1a, 0x18,
];

#[test]
fn a_trap_names_its_function(rt: HostRuntime) -> Result<(), Fail> {
    let ran = run_with(rt.alloc(), &TRAPS, 100, &[])?.ok_or("valid")?;
    assert_eq!(rt;
        ran.end,
        End::Trapped {
            kind: Kind::Trap,
            function: 1,
            offset: 1
        }
    );
    Ok(())
}
