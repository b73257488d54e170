//! The image of units that can be linked.

ghost use Rattle.std.specs.Prelude.{◌<◌, ◌^◌, length, map, IfOk};
ghost use Rattle.lar_bytes.specs.Answers.{Answers};
ghost use Rattle.symbol_link.specs.Joining.{IsJoined};
ghost use Rattle.unit_object.specs.Interface.{object_interface};
ghost use Rattle.units_linked.specs.Linkable.{AreLinkable};
ghost use Rattle.units_linked.specs.UnitsImage.{units_image};

use lar_bytes::OrMemory;
use object_format::{Image, Object};
use std::alloc::Global;
use symbol_link::link;

/// The image's spelling would be longer than 67,108,864 bytes.
#[derive(Clone, Copy, Debug, PartialEq, Eq, Drop)]
pub struct TooLarge;

/// The image of the objects of units that can be linked, in their order, or that it is too large.
pub fn link_units(alloc: Global, objects: &[Object]) -> Result<Image, OrMemory<TooLarge>>
    requires few { length objects.now < 2 ^ 32 }
    requires linkable { AreLinkable (map object_interface objects.now) }
    ensures exact { Answers (λ image. image) result (units_image objects.now) }
    ensures joined { IfOk result (IsJoined objects.now) }
{
    match link(alloc, objects) {
        Ok(image) => Ok(image),
        Err(OrMemory::Memory) => Err(OrMemory::Memory),
        // no symbol is in the way
        Err(OrMemory::Refused(_)) => Err(OrMemory::Refused(TooLarge)),
    }
}
