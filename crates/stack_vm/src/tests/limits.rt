use super::{alone, run_with};
use crate::{End, Kind};
use std::alloc::{AllocError, Global};
use std::test::Fail;

// Pushes 32,768 words, calls itself and traps.
fn deep(alloc: Global) -> Result<Vec<u8>, AllocError> {
    let mut code = Vec::from_slice(alloc, &[0x01, 1])?;
    for _ in 0..32_767 {
        code.push(0x19)?;
    }
    code.extend_from_slice(&[0x15, 0, 0, 0, 0, 0x18])?;
    alone(alloc, 0, &code)
}

// 32 frames of 32,768 words have as many as may be: 1,048,576 pushes and 31 calls, and the next call
// is the one too deep.
#[test]
fn operand_words_have_a_limit(rt: HostRuntime) -> Result<(), Fail> {
    let bytes = deep(rt.alloc())?;
    let last = run_with(rt.alloc(), &bytes, 1_048_607, &[])?.ok_or("valid")?;
    assert_eq!(rt; last.end, End::OutOfSteps);
    let ran = run_with(rt.alloc(), &bytes, 1_048_608, &[])?.ok_or("valid")?;
    assert_eq!(rt;
        ran.end,
        End::Trapped {
            kind: Kind::Depth,
            function: 0,
            offset: 32_769
        }
    );
    Ok(())
}

// An entry that calls function 1 so often, which leaves 255 words, and traps.
fn wide(alloc: Global, calls: u16) -> Result<Vec<u8>, AllocError> {
    let mut bytes = Vec::from_slice(
        alloc,
        b"LRPX\x00\x01\x00\x00\x00\x00\x00\x00\x00\x02\x00\x00\x00",
    )?;
    let len = u16::try_from(5 * u32::from(calls) + 1).unwrap_or(0);
    bytes.extend_from_slice(&len.to_be_bytes())?;
    for _ in 0..calls {
        bytes.extend_from_slice(&[0x15, 0, 0, 0, 1])?;
    }
    bytes.extend_from_slice(&[0x18, 0, 255, 0, 1, 1, 0x01, 1])?;
    for _ in 0..254 {
        bytes.push(0x19)?;
    }
    bytes.push(0x16)?;
    Ok(bytes)
}

// The entry's greatest height is 1,048,560 with 4,112 calls and 1,048,815 with one more.
#[test]
fn the_entry_may_be_too_deep(rt: HostRuntime) -> Result<(), Fail> {
    let fits = wide(rt.alloc(), 4112)?;
    let ran = run_with(rt.alloc(), &fits, 0, &[])?.ok_or("valid")?;
    assert_eq!(rt; ran.end, End::OutOfSteps);
    let more = wide(rt.alloc(), 4113)?;
    let ran = run_with(rt.alloc(), &more, 0, &[])?.ok_or("valid")?;
    assert_eq!(rt;
        ran.end,
        End::Trapped {
            kind: Kind::Depth,
            function: 0,
            offset: 0
        }
    );
    Ok(())
}
