//! How a case writes a source on one line: `\n`, `\r` and `\t` as in Rust, `\xHH` for any byte in lower-case hexadecimal digits, and
//! `\[N PIECE]` for a piece N times.

ghost use Rattle.std.specs.Prelude.{◌<◌};

use lar_tree::Bytes;
use std::alloc::{AllocError, Global};

// What a digit of base 16 stands for.
fn digit(b: u8) -> u8
    ensures { result < 16 }
{
    match b {
        b'0'..=b'9' => b - b'0',
        b'a'..=b'f' => b - b'a' + 10,
        _ => 0,
    }
}

fn append_hex(text: &[u8], out: &mut Bytes) -> Result<(), AllocError> {
    if let [high, low, rest @ ..] = text {
        out.push(digit(*high) * 16 + digit(*low))?;
        out.append(rest)?;
    }
    Ok(())
}

fn append_repeated(text: &str, out: &mut Bytes) -> Result<(), AllocError> {
    let Some(text) = text.strip_prefix('[') else {
        return Ok(());
    };
    let Some((repeated, rest)) = text.split_once(']') else {
        return Ok(());
    };
    if let Some((count, piece)) = repeated.split_once(' ') {
        for _ in 0..count.parse::<u16>().unwrap_or(0) {
            out.append(piece.as_bytes())?;
        }
    }
    out.append(rest.as_bytes())
}

// What stands after a backslash.
fn append_escaped(text: &str, out: &mut Bytes) -> Result<(), AllocError> {
    match text.as_bytes() {
        [b'n', rest @ ..] => {
            out.push(b'\n')?;
            out.append(rest)
        }
        [b'r', rest @ ..] => {
            out.push(b'\r')?;
            out.append(rest)
        }
        [b't', rest @ ..] => {
            out.push(b'\t')?;
            out.append(rest)
        }
        [b'x', rest @ ..] => append_hex(rest, out),
        _ => append_repeated(text, out),
    }
}

/// The source that a case writes.
pub fn source_of(alloc: Global, text: &str) -> Result<Bytes, AllocError> {
    let mut out = Bytes::new(alloc);
    for (i, part) in text.split('\\').enumerate() {
        if i == 0 {
            out.append(part.as_bytes())?;
        } else {
            append_escaped(part, &mut out)?;
        }
    }
    Ok(out)
}
