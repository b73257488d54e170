//! Linking: the symbols are defined, each external is looked up, the size is counted, and then the functions are placed.

ghost use Rattle.std.specs.Prelude.{◌<◌, ◌^◌, length, IfOk};
ghost use Rattle.lar_bytes.specs.Answers.{Answers};
ghost use Rattle.symbol_link.specs.Joining.{IsJoined};
ghost use Rattle.symbol_link.specs.Linked.{linked};

use crate::LinkFault;
use crate::defining::define_all;
use crate::placing::place_all;
use crate::resolving::check_all;
use crate::sizing::fits;
use lar_bytes::OrMemory;
use object_format::{Image, Object};
use std::alloc::Global;

/// The image of these objects, which are numbered from 0, or the first of the refusals in the order of [`LinkFault`]'s variants.
pub fn link(alloc: Global, objects: &[Object]) -> Result<Image, OrMemory<LinkFault>>
    requires { length objects.now < 2 ^ 32 }
    ensures exact { Answers (λ image. image) result (linked objects.now) }
    ensures joined { IfOk result (IsJoined objects.now) }
{
    let definitions = define_all(alloc, objects)?;
    check_all(alloc, &definitions, objects)?;
    let Some(entry) = definitions.get("main::main") else {
        return Err(OrMemory::Refused(LinkFault::NoEntry));
    };
    if !fits(objects) {
        return Err(OrMemory::Refused(LinkFault::TooLarge));
    }
    let functions = place_all(alloc, &definitions, objects)?;
    Ok(Image::new(entry.place as u32, functions))
}
