//! Records as they are written, and their names.

ghost use Rattle.std.specs.Prelude.{◌≡◌, ◌<◌, ◌^◌, length, string_bytes, IfOk};
ghost use Rattle.lar_bytes.specs.Answers.{Answers};
ghost use Rattle.work_products.specs.Records.{kept_record, record_written};
ghost use Rattle.work_products.specs.Records as spec;

use lar_bytes::{Bytes, OrMemory};
use std::alloc::{AllocError, Global};
use thiserror::Error;
use unit_input::fingerprint;

/// The most bytes of a record.
pub const MAX_RECORD: usize = 268_435_456;

/// The bytes of a record beside its text and its object.
const RECORD_FRAME: usize = 46;

/// The record would have more than [`MAX_RECORD`] bytes.
#[derive(Clone, Copy, Debug, PartialEq, Eq, Error)]
#[error("a record of more than 268435456 bytes")]
pub struct TooLong;

/// The name under which the record of a text is kept: 64 digits.
#[tactic(auto, unfolding(crate::specs::Records::record_name))]
pub fn record_name(alloc: Global, text: &[u8]) -> Result<String, AllocError>
    ensures { IfOk result (λ name. string_bytes name ≡ spec.record_name text.now) }
{
    hex::encode(alloc, fingerprint(text))
}

/// The record of so many bytes, in a buffer that is reserved whole.
fn record_of(alloc: Global, len: usize, text: &[u8], object: &[u8]) -> Result<Bytes, AllocError>
    requires text { length text.now < 2 ^ 32 }
    requires object { length object.now < 2 ^ 32 }
    ensures { IfOk result (λ bytes. bytes ≡ kept_record text.now object.now) }
{
    let mut out = Bytes::from_vec(Vec::with_capacity(alloc, len)?);
    out.append(b"LRWP\x00\x02")?;
    out.append(&(text.len() as u32).to_be_bytes())?;
    out.append(text)?;
    out.append(&(object.len() as u32).to_be_bytes())?;
    out.append(object)?;
    let digest = fingerprint(out.as_slice());
    out.append(&digest)?;
    Ok(out)
}

/// The record of a text and its object, in the newest version. It is refused exactly where it would have more than [`MAX_RECORD`]
/// bytes.
pub fn write_record(alloc: Global, text: &[u8], object: &[u8]) -> Result<Bytes, OrMemory<TooLong>>
    ensures { Answers (λ x. x) result (record_written text.now object.now) }
{
    let len = text
        .len()
        .saturating_add(object.len())
        .saturating_add(RECORD_FRAME);
    if len > MAX_RECORD {
        return Err(OrMemory::Refused(TooLong));
    }
    Ok(record_of(alloc, len, text, object)?)
}
