//! What the bytes of a file spell. Files are read to one byte past their limit, so that one that is too long is seen to
//! be so. The bytes are let go as soon as they are decoded.

ghost use Rattle.std.specs.Prelude.{◌≡◌, ◌⊎◌, Ok, Result, IfOk};
ghost use Rattle.lar_bytes.specs.Answers.{Answers};
ghost use Rattle.listings.specs.Listed.{listing_at, text_of};
ghost use Rattle.object_format.specs.Image.{version_field};
ghost use Rattle.object_format.specs.ObjectReading.{object_at};
ghost use Rattle.object_format.specs.Reading.{image_at};
ghost use Rattle.larch_cli.specs.Commands.{judged};
ghost use Rattle.larch_cli.specs.Spelled.{limited, valid_image};
ghost use Rattle.larch_cli.specs.Steps.{Idly, IsBadFile, image_shown, text_shown};

use crate::Status;
use lar_bytes::{Bytes, OrMemory, Text};
use listings::{Listed, read_listed};
use object_format::{BadFile, Image, Object, What, image_version, read_image, read_object};
use stack_vm::{Valid, validate};
use std::alloc::Global;

const MOST_OF_FILE: u64 = 67_108_864;

/// So many bytes are asked for.
pub(crate) const MOST_ASKED: u64 = MOST_OF_FILE + 1;

// Whether a file is not too long.
fn within_limit(bytes: &Bytes) -> Result<(), OrMemory<BadFile>>
    ensures { Answers (λ x. x) result (limited (λ _. Ok tt) bytes.now) }
{
    if bytes.len() as u64 > MOST_OF_FILE {
        Err(OrMemory::Refused(BadFile {
            at: MOST_OF_FILE,
            what: What::Long,
        }))
    } else {
        Ok(())
    }
}

// The image that the bytes of a file spell, and in which version. The bytes are let go.
fn image_of(alloc: Global, bytes: Bytes) -> Result<(Image, u16), OrMemory<BadFile>>
    ensures image { Answers (λ x. x.0) result (limited image_at bytes) }
    ensures version { IfOk result (λ x. x.1 ≡ version_field bytes) }
    ensures known { IfOk result (λ x. (x.1 ≡ 1) ⊎ (x.1 ≡ 2)) }
{
    within_limit(&bytes)?;
    let image = read_image(alloc, bytes.as_slice())?;
    Ok((image, image_version(bytes.as_slice())))
}

fn valid_image_of(alloc: Global, bytes: Bytes) -> Result<Valid, OrMemory<BadFile>>
    ensures { Answers (λ valid. valid.image) result (limited valid_image bytes) }
{
    let (image, version) = image_of(alloc, bytes)?;
    validate(alloc, image, version)
}

fn listed_of(alloc: Global, bytes: Bytes) -> Result<Listed, OrMemory<BadFile>>
    ensures { Answers text_of result (limited listing_at bytes) }
{
    within_limit(&bytes)?;
    read_listed(alloc, bytes.as_slice())
}

// The refusal of a file, or want of memory for its name.
fn bad_file(alloc: Global, name: &Text, fault: BadFile) -> Status
    ensures { IsBadFile name.now fault result }
{
    match Text::copied(alloc, name.as_str()) {
        Ok(name) => Status::BadFile(name, fault),
        Err(_) => Status::Memory,
    }
}

/// The object that the bytes of a file spell.
pub(crate) fn object_of(alloc: Global, bytes: Bytes) -> Result<Object, OrMemory<BadFile>>
    ensures { Answers (λ object. object) result (limited object_at bytes) }
{
    within_limit(&bytes)?;
    read_object(alloc, bytes.as_slice())
}

/// The valid image that the bytes of a file spell.
pub(crate) fn judge_image(alloc: Global, name: &Text, bytes: Bytes) -> Result<Valid, Status>
    ensures { Idly (judged name.now (limited valid_image bytes)) (image_shown result) }
{
    match valid_image_of(alloc, bytes) {
        Ok(valid) => Ok(valid),
        Err(OrMemory::Refused(fault)) => Err(bad_file(alloc, name, fault)),
        Err(OrMemory::Memory) => Err(Status::Memory),
    }
}

/// The object or image that the bytes of a file spell.
pub(crate) fn judge_listed(alloc: Global, name: &Text, bytes: Bytes) -> Result<Listed, Status>
    ensures { Idly (judged name.now (limited listing_at bytes)) (text_shown result) }
{
    match listed_of(alloc, bytes) {
        Ok(listed) => Ok(listed),
        Err(OrMemory::Refused(fault)) => Err(bad_file(alloc, name, fault)),
        Err(OrMemory::Memory) => Err(Status::Memory),
    }
}
