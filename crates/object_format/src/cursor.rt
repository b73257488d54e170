//! The fields that a file is made of, each read from what is left of it. A reader gives what it has read and what is left then, or says
//! at which field of the file the end came too soon, or something stood that may not stand there.

ghost use Rattle.std.specs.Prelude.{◌≡◌, ◌<◌, ◌≤◌, ◌^◌, IfOk};
ghost use Rattle.std.specs.Int.{w16, w32};
ghost use Rattle.lar_bytes.specs.Answers.{Answers};
ghost use Rattle.object_format.specs.Reading.{block_at, byte_at, number_at, fixed_at, opening_at, length_at, end_at};
ghost use Rattle.object_format.specs.Version.{length_width, max_code};
ghost use Rattle.lar_bytes.specs.declared.memory.OrMemory.TheVariants.{Refused};

use crate::{BadFile, Version, What};
use lar_bytes::OrMemory;
use std::marker::Model;

/// The fault that stands at this place of the file.
pub(crate) fn refused(at: u64, what: What) -> OrMemory<BadFile>
    ensures { result ≡ Refused (record { at = at; what = what }) }
{
    OrMemory::Refused(BadFile { at, what })
}

/// What is left of a file, and how many bytes stand before it.
#[derive(Drop)]
pub(crate) struct Cursor<'a> {
    pub(crate) at: u64,
    pub(crate) bytes: &'a [u8],
}

impl<'a> Model for Cursor<'a> {
    ghost use Rattle.std.specs.Prelude.{◌+◌, ◌<◌, ◌^◌, length};
    ghost use Rattle.object_format.specs.Reading.{Rest};

    ghost Value = { Rest };

    ghost view = { λ r. record { at = r.at; bytes = r.bytes.now } };

    ghost invariant = { λ r. r.at + length r.bytes.now < 2 ^ 64 };
}

/// The next bytes, so many of them.
pub(crate) fn block_of(len: usize, rest: Cursor) -> Result<(&[u8], Cursor), OrMemory<BadFile>>
    ensures { Answers (λ x. (x.0.now, x.1)) result (block_at len rest.entry) }
{
    let Cursor { at, bytes } = rest;
    if bytes.len() < len {
        return Err(refused(at, What::Short));
    }
    let (front, bytes) = bytes.split_at(len);
    Ok((
        front,
        Cursor {
            at: at + len as u64,
            bytes,
        },
    ))
}

pub(crate) fn u8_of(rest: Cursor) -> Result<(u8, Cursor), OrMemory<BadFile>>
    ensures { Answers (λ x. x) result (byte_at rest.entry) }
{
    let Cursor { at, bytes } = rest;
    match bytes {
        [] => Err(refused(at, What::Short)),
        [byte, bytes @ ..] => Ok((*byte, Cursor { at: at + 1, bytes })),
    }
}

pub(crate) fn u16_of(rest: Cursor) -> Result<(u16, Cursor), OrMemory<BadFile>>
    ensures { Answers (λ x. x) result (number_at w16 rest.entry) }
{
    let Cursor { at, bytes } = rest;
    if bytes.len() < 2 {
        return Err(refused(at, What::Short));
    }
    let (front, bytes) = bytes.split_at(2);
    Ok((
        u16::from_be_bytes([front[0], front[1]]),
        Cursor { at: at + 2, bytes },
    ))
}

pub(crate) fn u32_of(rest: Cursor) -> Result<(u32, Cursor), OrMemory<BadFile>>
    ensures read { Answers (λ x. x) result (number_at w32 rest.entry) }
    ensures fits { IfOk result (λ x. x.0 < 2 ^ 32) }
{
    let Cursor { at, bytes } = rest;
    if bytes.len() < 4 {
        return Err(refused(at, What::Short));
    }
    let (front, bytes) = bytes.split_at(4);
    let number = u32::from_be_bytes([front[0], front[1], front[2], front[3]]);
    Ok((number, Cursor { at: at + 4, bytes }))
}

/// A field that is the same in each file, or else the fault `what`.
pub(crate) fn fixed_of<'a>(
    text: &[u8],
    what: What,
    rest: Cursor<'a>,
) -> Result<Cursor<'a>, OrMemory<BadFile>>
    ensures { Answers (λ x. x) result (fixed_at text.now what rest.entry) }
{
    let Cursor { at, bytes } = rest;
    if bytes.len() < text.len() {
        return Err(refused(at, What::Short));
    }
    let (front, bytes) = bytes.split_at(text.len());
    if front != text {
        return Err(refused(at, what));
    }
    Ok(Cursor {
        at: at + text.len() as u64,
        bytes,
    })
}

/// The magic of a format, and a version that is none above the newest one that is taken.
#[tactic(auto, unfolding(crate::specs::Reading::opening_at))]
pub(crate) fn opening_of<'a>(
    newest: Version,
    magic: &[u8],
    rest: Cursor<'a>,
) -> Result<(Version, Cursor<'a>), OrMemory<BadFile>>
    ensures { Answers (λ x. x) result (opening_at newest magic.now rest.entry) }
{
    let rest = fixed_of(magic, What::Magic, rest)?;
    let at = rest.at;
    let (number, rest) = u16_of(rest)?;
    match Version::of(newest, number) {
        Some(version) => Ok((version, rest)),
        None => Err(refused(at, What::Version)),
    }
}

/// The length of a function's code.
#[tactic(auto, unfolding(crate::specs::Reading::length_at))]
pub(crate) fn length_of(
    version: Version,
    rest: Cursor,
) -> Result<(usize, Cursor), OrMemory<BadFile>>
    ensures read { Answers (λ x. x) result (length_at version rest.entry) }
    ensures fits { IfOk result (λ x. x.0 ≤ max_code) }
{
    let at = rest.at;
    let (len, rest) = wide_of(version, rest)?;
    if len > version.max_code() {
        return Err(refused(at, What::Code));
    }
    Ok((len, rest))
}

/// A number in the width that a version has for the length of code.
fn wide_of(version: Version, rest: Cursor) -> Result<(usize, Cursor), OrMemory<BadFile>>
    ensures { Answers (λ x. x) result (number_at (length_width version) rest.entry) }
{
    match version {
        Version::One => {
            let (len, rest) = u16_of(rest)?;
            Ok((len as usize, rest))
        }
        Version::Two => {
            let (len, rest) = u32_of(rest)?;
            Ok((len as usize, rest))
        }
    }
}

/// Nothing more.
pub(crate) fn end_of(rest: Cursor) -> Result<(), OrMemory<BadFile>>
    ensures { Answers (λ _. tt) result (end_at rest.entry) }
{
    let Cursor { at, bytes } = rest;
    if !bytes.is_empty() {
        return Err(refused(at, What::Trailing));
    }
    Ok(())
}
