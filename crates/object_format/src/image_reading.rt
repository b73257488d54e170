//! Reading an image, field by field from left to right. The first field that breaks its rule is the fault.

ghost use Rattle.std.specs.Prelude.{◌≡◌, ◌⊎◌, [], Ok, IfOk};
ghost use Rattle.lar_bytes.specs.Answers.{Answers};
ghost use Rattle.object_format.specs.Image.{Linked, image_spelling_in, version_field, SpellsImage};
ghost use Rattle.object_format.specs.Reading.{function_at, linked_behind, items_at, counts_at, head_at, image_at};
ghost use Rattle.object_format.specs.Version.{number_of};
ghost use Rattle.object_format.specs.declared.version.Version.{Version};

use crate::code::fault_of;
use crate::cursor::{Cursor, block_of, end_of, length_of, opening_of, refused, u8_of, u32_of};
use crate::{BadFile, Image, ImageFn, ImageFunctions, Version, What};
use lar_bytes::{Bytes, OrMemory};
use std::alloc::Global;

/// The entry, the count of functions, and what is left behind both.
#[tactic(auto, unfolding(crate::specs::Reading::counts_at))]
fn counts_of(rest: Cursor) -> Result<(u32, u32, Cursor), OrMemory<BadFile>>
    ensures { Answers (λ x. x) result (counts_at rest.entry) }
{
    let at = rest.at;
    let (entry, rest) = u32_of(rest)?;
    let (count, rest) = u32_of(rest)?;
    if entry >= count {
        return Err(refused(at, What::Entry));
    }
    Ok((entry, count, rest))
}

/// What stands before the functions.
#[tactic(auto, unfolding(crate::specs::Reading::head_at))]
fn head_of(rest: Cursor) -> Result<(Version, u32, u32, Cursor), OrMemory<BadFile>>
    ensures { Answers (λ x. x) result (head_at rest.entry) }
{
    let (version, rest) = opening_of(Version::Two, b"LRPX", rest)?;
    let (entry, count, rest) = counts_of(rest)?;
    Ok((version, entry, count, rest))
}

/// A function of a file in which calls have so many callees, where their count is known.
#[tactic(auto, unfolding(crate::specs::Reading::function_at))]
pub(crate) fn function_of(
    alloc: Global,
    version: Version,
    callees: Option<u64>,
    rest: Cursor,
) -> Result<(ImageFn, Cursor), OrMemory<BadFile>>
    ensures { Answers (λ x. x) result (function_at version callees rest.entry) }
{
    let (params, rest) = u8_of(rest)?;
    let (results, rest) = u8_of(rest)?;
    let (slots, rest) = u8_of(rest)?;
    let (len, rest) = length_of(version, rest)?;
    let at = rest.at;
    let (code, rest) = block_of(len, rest)?;
    if let Some(fault) = fault_of(callees, at, code) {
        return Err(OrMemory::Refused(fault));
    }
    let code = Bytes::copied(alloc, code)?;
    Ok((ImageFn::new(params, results, slots, code), rest))
}

/// One function more.
#[tactic(auto, unfolding(crate::specs::Reading::linked_behind))]
fn function_behind(
    alloc: Global,
    version: Version,
    count: u32,
    functions: ImageFunctions,
    rest: Cursor,
) -> Result<(ImageFunctions, Cursor), OrMemory<BadFile>>
    ensures { Answers (λ x. x) result (linked_behind version count functions rest.entry) }
{
    let mut functions = functions;
    let (function, rest) = function_of(alloc, version, Some(u64::from(count)), rest)?;
    functions.push(function)?;
    Ok((functions, rest))
}

/// So many functions.
fn functions_of(
    alloc: Global,
    version: Version,
    count: u32,
    rest: Cursor,
) -> Result<(ImageFunctions, Cursor), OrMemory<BadFile>>
    ensures { Answers (λ x. x) result (items_at (linked_behind version count) count [] rest.entry) }
{
    let mut functions = ImageFunctions::new(alloc);
    let mut rest = rest;
    for _ in 0..count {
        let (more, behind) = function_behind(alloc, version, count, functions, rest)?;
        functions = more;
        rest = behind;
    }
    Ok((functions, rest))
}

#[tactic(auto, unfolding(crate::specs::Reading::image_at))]
fn image_of(alloc: Global, bytes: &[u8]) -> Result<Image, OrMemory<BadFile>>
    ensures { Answers (λ x. x) result (image_at bytes.now) }
{
    let (version, entry, count, rest) = head_of(Cursor { at: 0, bytes })?;
    let (functions, rest) = functions_of(alloc, version, count, rest)?;
    end_of(rest)?;
    Ok(Image::new(entry, functions))
}

/// The image that the bytes spell in one of the versions, all of the bytes. A refusal names the first field, from left to
/// right, that breaks its rule: a field that the end cuts, a number or text that may not stand there, a length of code beyond the
/// version's limit, a byte of code at which no instruction stands, a call of no function, bytes behind the last.
pub fn read_image(alloc: Global, bytes: &[u8]) -> Result<Image, OrMemory<BadFile>>
    // What is read is spelled so.
    ensures found { IfOk result (λ image. SpellsImage bytes.now image) }
    // What is spelled so is read, unless memory runs out.
    ensures only { (image : Linked) → SpellsImage bytes.now image → Answers (λ x. x) result (Ok image) }
    // Which fault it is.
    ensures exact { Answers (λ x. x) result (image_at bytes.now) }
{
    image_of(alloc, bytes)
}

/// The version of an image's spelling.
pub fn image_version(bytes: &[u8]) -> u16
    requires { (version : Version) × (image : Linked) × (bytes.now ≡ image_spelling_in version image) }
    // It is the version of which the bytes are the spelling,
    ensures version { (version : Version) (image : Linked) → bytes.now ≡ image_spelling_in version image → result ≡ number_of version }
    // which is one of the two
    ensures known { (result ≡ 1) ⊎ (result ≡ 2) }
    // and stands behind the magic.
    ensures field { result ≡ version_field bytes.now }
{
    u16::from_be_bytes([bytes[4], bytes[5]])
}
