//! What the externals of objects are bound to.
//!
//! Externals are looked up twice: first all of them, to find one that nothing defines, and then those of each object, to place
//! its functions.

ghost use Rattle.std.specs.Prelude.{◌≡◌, ◌<◌, ◌^◌, length, IsSome, IfOk};
ghost use Rattle.std.specs.List.{AllByRecursion};
ghost use Rattle.symbol_link.specs.Faults.{Checks, missing, undefined_in, undefined_from};
ghost use Rattle.symbol_link.specs.Found.{found};
ghost use Rattle.symbol_link.specs.Linked.{places_of};

use crate::LinkFault;
use crate::definitions::Definitions;
use lar_bytes::{OrMemory, Text};
use object_format::Object;
use std::alloc::{AllocError, Global};

/// Refuses an external that is not defined.
fn check_external(
    alloc: Global,
    definitions: &Definitions<'_>,
    external: &Text,
    object: u32,
) -> Result<(), OrMemory<LinkFault>>
    ensures { Checks (missing external.now (found definitions.now external.now) object) result }
{
    match definitions.get(external.as_str()) {
        Some(_) => Ok(()),
        None => {
            let symbol = Text::copied(alloc, external.as_str())?;
            Err(OrMemory::Refused(LinkFault::Undefined { symbol, object }))
        }
    }
}

/// Refuses the first external of an object that is not defined.
fn check_externals(
    alloc: Global,
    definitions: &Definitions<'_>,
    externals: &[Text],
    object: u32,
) -> Result<(), OrMemory<LinkFault>>
    ensures { Checks (undefined_in (found definitions.now) object externals.now) result }
{
    for external in externals {
        check_external(alloc, definitions, external, object)?;
    }
    Ok(())
}

/// Refuses the first external of the first object that has one that is not defined.
pub(crate) fn check_all(
    alloc: Global,
    definitions: &Definitions<'_>,
    objects: &[Object],
) -> Result<(), OrMemory<LinkFault>>
    requires { length objects.now < 2 ^ 32 }
    ensures { Checks (undefined_from (found definitions.now) 0 objects.now) result }
{
    for (number, object) in objects.iter().enumerate() {
        check_externals(alloc, definitions, object.externals(), number as u32)?;
    }
    Ok(())
}

/// The places of externals.
pub(crate) fn places_of(
    alloc: Global,
    definitions: &Definitions<'_>,
    externals: &[Text],
) -> Result<Vec<usize>, AllocError>
    requires { AllByRecursion (λ symbol. IsSome (found definitions.now symbol)) externals.now }
    ensures { IfOk result (λ places. places.items ≡ places_of (found definitions.now) externals.now) }
{
    let mut places = Vec::new(alloc);
    for external in externals {
        places.push(definitions.place_of(external.as_str()))?;
    }
    Ok(places)
}
