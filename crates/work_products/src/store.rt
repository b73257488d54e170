//! Looking for the object of a text in a keeper, and keeping one.

ghost use Rattle.std.specs.Prelude.{◌≡◌, ◌+◌, IfOk, IfSome, Some};
ghost use Rattle.keepers.specs.KeeperState.{faults_of};
ghost use Rattle.work_products.specs.Records as spec;
ghost use Rattle.work_products.specs.Store.{FindEnds, FindTells, KeepEnds, SaveEnds, find_faults, found_in, keep_faults, newest, object_for, whole};

use crate::record::{MAX_RECORD, record_name, write_record};
use crate::record_reading::{Parts, parts_in};
use keepers::{Keeper, Loaded, Saved};
use lar_bytes::{Bytes, OrMemory};
use object_format::{Version, lift_object};
use std::alloc::{AllocError, Global};

/// So many bytes of a record are asked for: one more than it may have.
const MOST_LOADED: u64 = 268_435_457;

/// What is found for a text.
#[derive(Debug, Drop)]
pub enum Found {
    /// A whole record of this very text. This is its object, in the newest version.
    Whole(Bytes),
    /// The name of the text is not there.
    Absent,
    /// The name holds other bytes than a whole record of this text.
    Damaged,
    /// The keeper failed.
    StoreFault,
}

/// Whether the store was changed as asked.
#[derive(Clone, Copy, Debug, PartialEq, Eq)]
pub enum Kept {
    /// The name holds the record, or the names are gone.
    Done,
    /// The record would be longer than one may be, and nothing was saved.
    TooLong,
    /// The keeper failed.
    StoreFault,
}

/// An object in the newest version, from a record of this version.
fn newest_of(alloc: Global, version: Version, object: &[u8]) -> Result<Option<Bytes>, AllocError>
    ensures { IfOk result (λ lifted. lifted ≡ newest version object.now) }
{
    match version {
        Version::Two => Ok(Some(Bytes::copied(alloc, object)?)),
        Version::One => match lift_object(alloc, object) {
            Ok(lifted) => Ok(Some(lifted)),
            Err(OrMemory::Refused(_)) => Ok(None),
            Err(OrMemory::Memory) => Err(AllocError),
        },
    }
}

/// The object of a record, where it is one of this text.
fn object_of(alloc: Global, text: &[u8], parts: Parts) -> Result<Option<Bytes>, AllocError>
    ensures { IfOk result (λ object. object
        ≡ object_for text.now
        (record { version = parts.entry.version; text = parts.entry.text.now; object = parts.entry.object.now })) }
{
    let Parts {
        version,
        text: own,
        object,
    } = parts;
    if own != text {
        return Ok(None);
    }
    newest_of(alloc, version, object)
}

/// The object that bytes have for a text.
#[tactic(auto, unfolding(crate::specs::Store::whole))]
fn object_in(alloc: Global, text: &[u8], bytes: &[u8]) -> Result<Option<Bytes>, AllocError>
    ensures { IfOk result (λ object. object ≡ whole text.now bytes.now) }
{
    if bytes.len() > MAX_RECORD {
        return Ok(None);
    }
    match parts_in(bytes) {
        Ok(parts) => object_of(alloc, text, parts),
        Err(OrMemory::Refused(_)) => Ok(None),
        Err(OrMemory::Memory) => Err(AllocError),
    }
}

/// What loaded bytes are for a text.
fn judge(alloc: Global, text: &[u8], bytes: &[u8]) -> Result<Found, AllocError>
    ensures { IfOk result (λ found. found ≡ found_in text.now (Some bytes.now)) }
{
    match object_in(alloc, text, bytes) {
        Ok(Some(object)) => Ok(Found::Whole(object)),
        Ok(None) => Ok(Found::Damaged),
        Err(error) => Err(error),
    }
}

/// Looks for the object of a text under its name.
fn find_under<K: Keeper>(
    alloc: Global,
    keeper: &mut K,
    name: &str,
    text: &[u8],
) -> Result<Found, AllocError>
    requires { name.now ≡ spec.record_name text.now }
    ensures ends { FindEnds (K.told keeper.old) text.now result (K.told keeper.new) }
    ensures tells { IfSome (K.told keeper.old).held (λ held. IfOk result (FindTells held text.now)) }
{
    match keeper.load(alloc, name, MOST_LOADED) {
        Ok(Loaded::Bytes(bytes)) => judge(alloc, text, bytes.as_slice()),
        Ok(Loaded::Absent) => Ok(Found::Absent),
        Ok(Loaded::Failed) => Ok(Found::StoreFault),
        Err(error) => Err(error),
    }
}

fn find_record<K: Keeper>(alloc: Global, keeper: &mut K, text: &[u8]) -> Result<Found, AllocError>
    ensures ends { FindEnds (K.told keeper.old) text.now result (K.told keeper.new) }
    ensures tells { IfSome (K.told keeper.old).held (λ held. IfOk result (FindTells held text.now)) }
{
    let name = record_name(alloc, text)?;
    find_under(alloc, keeper, name.as_str(), text)
}

/// Looks for the object of a text: one load, of the text's name. `StoreFault` comes only where that load fails.
pub fn find<K: Keeper>(alloc: Global, keeper: &mut K, text: &[u8]) -> Result<Found, AllocError>
    ensures ends { FindEnds (K.told keeper.old) text.now result (K.told keeper.new) }
    ensures tells { IfSome (K.told keeper.old).held (λ held. IfOk result (FindTells held text.now)) }
    ensures faults { faults_of (K.told keeper.new) ≡ faults_of (K.told keeper.old) + find_faults result }
{
    find_record(alloc, keeper, text)
}

/// Saves the bytes of a text's record under its name.
fn save_record<K: Keeper>(
    alloc: Global,
    keeper: &mut K,
    text: &[u8],
    bytes: &[u8],
) -> Result<Kept, AllocError>
    ensures { SaveEnds (K.told keeper.old) text.now bytes.now result (K.told keeper.new) }
{
    let name = record_name(alloc, text)?;
    match keeper.save(alloc, name.as_str(), bytes) {
        Saved::Done => Ok(Kept::Done),
        Saved::Failed => Ok(Kept::StoreFault),
        Saved::Memory => Err(AllocError),
    }
}

fn keep_record<K: Keeper>(
    alloc: Global,
    keeper: &mut K,
    text: &[u8],
    object: &[u8],
) -> Result<Kept, AllocError>
    ensures { KeepEnds (K.told keeper.old) text.now object.now result (K.told keeper.new) }
{
    match write_record(alloc, text, object) {
        Ok(bytes) => save_record(alloc, keeper, text, bytes.as_slice()),
        Err(OrMemory::Refused(_)) => Ok(Kept::TooLong),
        Err(OrMemory::Memory) => Err(AllocError),
    }
}

/// Keeps the object of a text: one save of its record, under the text's name. `TooLong` comes exactly where the record would be
/// longer than one may be, and `StoreFault` only where the save fails.
pub fn keep<K: Keeper>(
    alloc: Global,
    keeper: &mut K,
    text: &[u8],
    object: &[u8],
) -> Result<Kept, AllocError>
    ensures ends { KeepEnds (K.told keeper.old) text.now object.now result (K.told keeper.new) }
    ensures faults { faults_of (K.told keeper.new) ≡ faults_of (K.told keeper.old) + keep_faults result }
{
    keep_record(alloc, keeper, text, object)
}
