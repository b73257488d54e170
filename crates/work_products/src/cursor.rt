//! The fields that a record is made of, each read from what is left of it.

ghost use Rattle.std.specs.Prelude.{◌≡◌, ◌+◌, ◌≤◌, ◌^◌, ◌<◌, IfOk, length};
ghost use Rattle.std.specs.Int.{w16, w32};
ghost use Rattle.lar_bytes.specs.Answers.{Answers};
ghost use Rattle.lar_bytes.specs.declared.memory.OrMemory.TheVariants.{Refused};
ghost use Rattle.object_format.specs.Reading.{block_at, end_at, fixed_at, number_at, opening_at};
ghost use Rattle.object_format.specs.declared.version.Version.TheVariants.{Two};
ghost use Rattle.work_products.specs.RecordReading.{counted_at};
ghost use Rattle.work_products.specs.Records.{record_magic};

use lar_bytes::OrMemory;
use object_format::{BadFile, Version, What};
use std::marker::Model;

/// The fault that stands at this place.
fn refused(at: u64, what: What) -> OrMemory<BadFile>
    ensures { result ≡ Refused (record { at = at; what = what }) }
{
    OrMemory::Refused(BadFile { at, what })
}

/// What is left of a record, and how many bytes stand before it.
#[derive(Drop)]
pub(crate) struct Cursor<'a> {
    pub(crate) at: u64,
    pub(crate) bytes: &'a [u8],
}

impl<'a> Model for Cursor<'a> {
    ghost use Rattle.std.specs.Prelude.{◌+◌, ◌<◌, ◌^◌, length};
    ghost use Rattle.object_format.specs.Reading.{Rest};

    ghost Value = { Rest };

    ghost view = { λ r. record { at = r.at; bytes = r.bytes.now } };

    ghost invariant = { λ r. r.at + length r.bytes.now < 2 ^ 64 };
}

/// The next bytes, so many of them.
fn block_of(len: usize, rest: Cursor) -> Result<(&[u8], Cursor), OrMemory<BadFile>>
    ensures { Answers (λ x. (x.0.now, x.1)) result (block_at len rest.entry) }
{
    let Cursor { at, bytes } = rest;
    if bytes.len() < len {
        return Err(refused(at, What::Short));
    }
    let (front, bytes) = bytes.split_at(len);
    Ok((
        front,
        Cursor {
            at: at + len as u64,
            bytes,
        },
    ))
}

fn u16_of(rest: Cursor) -> Result<(u16, Cursor), OrMemory<BadFile>>
    ensures { Answers (λ x. x) result (number_at w16 rest.entry) }
{
    let Cursor { at, bytes } = rest;
    if bytes.len() < 2 {
        return Err(refused(at, What::Short));
    }
    let (front, bytes) = bytes.split_at(2);
    Ok((
        u16::from_be_bytes([front[0], front[1]]),
        Cursor { at: at + 2, bytes },
    ))
}

fn u32_of(rest: Cursor) -> Result<(u32, Cursor), OrMemory<BadFile>>
    ensures { Answers (λ x. x) result (number_at w32 rest.entry) }
{
    let Cursor { at, bytes } = rest;
    if bytes.len() < 4 {
        return Err(refused(at, What::Short));
    }
    let (front, bytes) = bytes.split_at(4);
    let number = u32::from_be_bytes([front[0], front[1], front[2], front[3]]);
    Ok((number, Cursor { at: at + 4, bytes }))
}

/// A field whose bytes are known, or else the fault `what`.
pub(crate) fn fixed_of<'a>(
    field: &[u8],
    what: What,
    rest: Cursor<'a>,
) -> Result<Cursor<'a>, OrMemory<BadFile>>
    ensures { Answers (λ x. x) result (fixed_at field.now what rest.entry) }
{
    let Cursor { at, bytes } = rest;
    if bytes.len() < field.len() {
        return Err(refused(at, What::Short));
    }
    let (front, bytes) = bytes.split_at(field.len());
    if front != field {
        return Err(refused(at, what));
    }
    Ok(Cursor {
        at: at + field.len() as u64,
        bytes,
    })
}

/// The magic of records, and the version behind it.
#[tactic(auto, unfolding(object_format::specs::Reading::opening_at))]
pub(crate) fn opening_of(rest: Cursor) -> Result<(Version, Cursor), OrMemory<BadFile>>
    ensures { Answers (λ x. x) result (opening_at Two record_magic rest.entry) }
{
    let rest = fixed_of(b"LRWP", What::Magic, rest)?;
    let at = rest.at;
    let (number, rest) = u16_of(rest)?;
    match number {
        1 => Ok((Version::One, rest)),
        2 => Ok((Version::Two, rest)),
        _ => Err(refused(at, What::Version)),
    }
}

/// Bytes behind their length.
#[tactic(auto, unfolding(crate::specs::RecordReading::counted_at))]
pub(crate) fn counted_of(rest: Cursor) -> Result<(&[u8], Cursor), OrMemory<BadFile>>
    ensures { Answers (λ x. (x.0.now, x.1)) result (counted_at rest.entry) }
{
    let (len, rest) = u32_of(rest)?;
    block_of(len as usize, rest)
}

/// Nothing more.
pub(crate) fn end_of(rest: Cursor) -> Result<(), OrMemory<BadFile>>
    ensures { Answers (λ _. tt) result (end_at rest.entry) }
{
    let Cursor { at, bytes } = rest;
    if !bytes.is_empty() {
        return Err(refused(at, What::Trailing));
    }
    Ok(())
}
