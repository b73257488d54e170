//! The functions of the image: those of the objects, one after the other, with calls that lead to places.

ghost use Rattle.std.specs.Prelude.{◌≡◌, ℕ, ◌+◌, ◌<◌, ◌≤◌, ◌^◌, ◌++◌, length, map, List, None, IsSome, IfOk, OnOk};
ghost use Rattle.std.specs.List.{AllByRecursion};
ghost use Rattle.object_format.specs.Code.{IsLinkedCode};
ghost use Rattle.object_format.specs.Object.{IsUnlinked};
ghost use Rattle.symbol_link.specs.Callees.{place_by, reach};
ghost use Rattle.symbol_link.specs.Faults.{undefined_from};
ghost use Rattle.symbol_link.specs.Found.{found};
ghost use Rattle.symbol_link.specs.Linked.{placed, placed_all, functions_from};
ghost use Rattle.symbol_link.specs.Symbols.{place_of, function_count};

use crate::definitions::Definitions;
use crate::relocating::Callees;
use crate::resolving::places_of;
use object_format::{ImageFn, ImageFunctions, Object, ObjectFn};
use std::alloc::{AllocError, Global};

/// A function of an object as it is in the image.
fn placed(alloc: Global, callees: &Callees<'_>, function: &ObjectFn) -> Result<ImageFn, AllocError>
    requires { IsLinkedCode (reach callees.now) function.now.code }
    ensures { IfOk result (λ f. f ≡ placed (place_by callees.now) function.now) }
{
    let code = callees.relocated(alloc, function.code())?;
    Ok(ImageFn::new(function.params(), function.result(), function.slots(), code))
}

/// Puts the functions of an object at the end of an image's.
fn place_functions(
    alloc: Global,
    image: &mut ImageFunctions,
    callees: &Callees<'_>,
    functions: &[ObjectFn],
) -> Result<(), AllocError>
    requires { AllByRecursion (λ f. IsLinkedCode (reach callees.now) f.code) functions.now }
    ensures { OnOk result (image.new ≡ image.old ++ map (placed (place_by callees.now)) functions.now) }
{
    for function in functions {
        image.push(placed(alloc, callees, function)?)?;
    }
    Ok(())
}

/// Puts the functions of an object, the first of which gets the place `start`, at the end of an image's.
fn place_object(
    alloc: Global,
    image: &mut ImageFunctions,
    definitions: &Definitions<'_>,
    object: &Object,
    start: usize,
) -> Result<(), AllocError>
    requires defined { AllByRecursion (λ symbol. IsSome (found definitions.now symbol)) object.now.externals }
    requires places { (symbol : List ℕ) → place_of (found definitions.now symbol) < 2 ^ 32 }
    requires fits { start + length object.now.functions ≤ 2 ^ 32 }
    ensures { OnOk result (image.new ≡ image.old ++ placed_all (found definitions.now) start object.now) }
{
    let functions = object.functions();
    let externals = places_of(alloc, definitions, object.externals())?;
    let callees = Callees {
        start,
        own: functions.len(),
        externals: &externals,
    };
    place_functions(alloc, image, &callees, functions)
}

/// The functions of the image.
pub(crate) fn place_all(
    alloc: Global,
    definitions: &Definitions<'_>,
    objects: &[Object],
) -> Result<ImageFunctions, AllocError>
    requires defined { undefined_from (found definitions.now) 0 objects.now ≡ None }
    requires places { (symbol : List ℕ) → place_of (found definitions.now symbol) < 2 ^ 32 }
    requires fits { function_count objects.now ≤ 2 ^ 32 }
    ensures { IfOk result (λ functions. functions ≡ functions_from (found definitions.now) 0 objects.now) }
{
    let mut functions = ImageFunctions::new(alloc);
    for object in objects {
        let start = functions.len();
        place_object(alloc, &mut functions, definitions, object, start)?;
    }
    Ok(functions)
}
