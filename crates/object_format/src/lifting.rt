//! Lifting an object: its oldest spelling becomes the newest one.

ghost use Rattle.std.specs.Prelude.{◌≡◌, Ok, IfOk};
ghost use Rattle.lar_bytes.specs.Answers.{Answers};
ghost use Rattle.object_format.specs.Object.{Unlinked, LiftsTo, SpellsObjectAs, object_spelling};
ghost use Rattle.object_format.specs.ObjectReading.{lifted_at};
ghost use Rattle.object_format.specs.declared.version.Version.TheVariants.{One};

use crate::object_reading::object_of;
use crate::{BadFile, Version, write_object};
use lar_bytes::{Bytes, OrMemory};
use std::alloc::Global;

fn lifted_of(alloc: Global, bytes: &[u8]) -> Result<Bytes, OrMemory<BadFile>>
    ensures { Answers (λ x. x) result (lifted_at bytes.now) }
{
    let object = object_of(alloc, Version::One, bytes)?;
    Ok(write_object(alloc, &object)?)
}

/// The newest spelling of the object that the bytes spell in version 1. Other bytes are refused as `read_object` refuses them, and those
/// of version 2 by their version.
pub fn lift_object(alloc: Global, bytes: &[u8]) -> Result<Bytes, OrMemory<BadFile>>
    // What is lifted is the spelling of the object that the bytes spell.
    ensures found { IfOk result (λ lifted. LiftsTo bytes.now lifted) }
    // Each such object is lifted, unless memory runs out.
    ensures only { (object : Unlinked) → SpellsObjectAs One bytes.now object → Answers (λ x. x) result (Ok (object_spelling object)) }
    // Which fault it is.
    ensures exact { Answers (λ x. x) result (lifted_at bytes.now) }
{
    lifted_of(alloc, bytes)
}
