//! Reading a record, field by field from left to right. The first field that breaks its rule is the fault.

ghost use Rattle.std.specs.Prelude.{◌≡◌, ◌≤◌, length, take, Ok, IfOk};
ghost use Rattle.lar_bytes.specs.Answers.{Answers};
ghost use Rattle.object_format.specs.Version.{number_of};
ghost use Rattle.work_products.specs.RecordReading.{digest_at, front_at, parts_of, record_at, record_read};
ghost use Rattle.work_products.specs.Records.{Record, SpellsRecord};

use crate::cursor::{Cursor, counted_of, end_of, fixed_of, opening_of};
use lar_bytes::{Bytes, OrMemory};
use object_format::{BadFile, Version, What};
use std::alloc::Global;
use unit_input::fingerprint;

/// A record whose text and object lie in its bytes.
#[derive(Drop)]
pub(crate) struct Parts<'a> {
    pub(crate) version: Version,
    pub(crate) text: &'a [u8],
    pub(crate) object: &'a [u8],
}

/// The digest of all bytes before the rest.
fn digest_of<'a>(bytes: &[u8], rest: Cursor<'a>) -> Result<Cursor<'a>, OrMemory<BadFile>>
    requires { rest.at ≤ length bytes.now }
    ensures { Answers (λ x. x) result (digest_at bytes.now rest.entry) }
{
    let digest = fingerprint(&bytes[..rest.at as usize]);
    fixed_of(&digest, What::Digest, rest)
}

/// A record at the front of the bytes, and what is left behind it.
#[tactic(auto, unfolding(crate::specs::RecordReading::front_at))]
fn front_of(bytes: &[u8]) -> Result<(Parts, Cursor), OrMemory<BadFile>>
    ensures { Answers (λ x. (record { version = x.0.version; text = x.0.text.now; object = x.0.object.now }, x.1)) result
        (front_at bytes.now) }
{
    let (version, rest) = opening_of(Cursor { at: 0, bytes })?;
    let (text, rest) = counted_of(rest)?;
    let (object, rest) = counted_of(rest)?;
    let rest = digest_of(bytes, rest)?;
    Ok((
        Parts {
            version,
            text,
            object,
        },
        rest,
    ))
}

/// The record that the bytes are, all of them.
#[tactic(auto, unfolding(crate::specs::RecordReading::record_at))]
pub(crate) fn parts_in(bytes: &[u8]) -> Result<Parts, OrMemory<BadFile>>
    ensures { Answers (λ x. record { version = x.version; text = x.text.now; object = x.object.now }) result (record_at bytes.now) }
{
    let (parts, rest) = front_of(bytes)?;
    end_of(rest)?;
    Ok(parts)
}

/// A copy of the text and of the object of a record, behind its version's number.
fn copied_parts(alloc: Global, bytes: &[u8]) -> Result<(u16, Bytes, Bytes), OrMemory<BadFile>>
    ensures { Answers (λ x. x) result (record_read bytes.now) }
{
    let Parts {
        version,
        text,
        object,
    } = parts_in(bytes)?;
    let text = Bytes::copied(alloc, text)?;
    let object = Bytes::copied(alloc, object)?;
    Ok((version.number(), text, object))
}

/// The record that the bytes spell in one of the versions: its version's number, its text and its object. A refusal names the first
/// field, from left to right, that breaks its rule: one that the end cuts, another magic or version, a digest that is not that of
/// the bytes before it, bytes behind the last.
pub fn read_record(alloc: Global, bytes: &[u8]) -> Result<(u16, Bytes, Bytes), OrMemory<BadFile>>
    // What is read is spelled so.
    ensures found { IfOk result (λ parts. (r : Record) × SpellsRecord bytes.now r × (parts ≡ parts_of r)) }
    // What is spelled so is read, unless memory runs out.
    ensures only { (r : Record) → SpellsRecord bytes.now r → Answers (λ x. x) result (Ok (parts_of r)) }
    // Which fault it is.
    ensures exact { Answers (λ x. x) result (record_read bytes.now) }
{
    copied_parts(alloc, bytes)
}
