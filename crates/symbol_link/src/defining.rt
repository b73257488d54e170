//! Defining the external functions of all objects, each at its place in the image.
//!
//! An object's functions have the places behind those of all objects before it. A symbol that is defined already is one of an
//! earlier object, since no symbol stands twice in one object.

ghost use Rattle.std.specs.Prelude.{◌≡◌, ◌+◌, ◌<◌, ◌^◌, length};
ghost use Rattle.std.specs.List.{IsDistinct};
ghost use Rattle.std.specs.Str.{bytes_eq};
ghost use Rattle.object_format.specs.Object.{symbols_of};
ghost use Rattle.symbol_link.specs.Defining.{DefinesOne, DefinesFunctions, DefinesAll};
ghost use Rattle.symbol_link.specs.Found.{found};

use crate::LinkFault;
use crate::definitions::{Definition, Definitions};
use lar_bytes::{OrMemory, Text};
use object_format::{Object, ObjectFn};
use std::alloc::Global;

/// Defines a function where it is external, or refuses it where its symbol is defined already.
fn define_function<'a>(
    alloc: Global,
    definitions: &mut Definitions<'a>,
    function: &'a ObjectFn,
    object: u32,
    place: usize,
) -> Result<(), OrMemory<LinkFault>>
    ensures { DefinesOne (found definitions.old) (found definitions.new) function.now object place result }
{
    if !function.is_external() {
        return Ok(());
    }
    let symbol = function.symbol().as_str();
    match definitions.define(symbol, Definition { object, place })? {
        None => Ok(()),
        Some(earlier) => {
            let symbol = Text::copied(alloc, symbol)?;
            Err(OrMemory::Refused(LinkFault::Twice {
                symbol,
                first: earlier.object,
                second: object,
            }))
        }
    }
}

/// Defines the external functions of an object, the first of which has the place `start`.
fn define_functions<'a>(
    alloc: Global,
    definitions: &mut Definitions<'a>,
    functions: &'a [ObjectFn],
    object: u32,
    start: usize,
) -> Result<(), OrMemory<LinkFault>>
    requires distinct { IsDistinct bytes_eq (symbols_of functions.now) }
    requires fits { start + length functions.now < 2 ^ 64 }
    ensures { DefinesFunctions (found definitions.old) (found definitions.new) functions.now object start result }
{
    for (k, function) in functions.iter().enumerate() {
        define_function(alloc, definitions, function, object, start + k)?;
    }
    Ok(())
}

/// The definitions of all external functions, or the first symbol that is defined twice.
pub(crate) fn define_all(
    alloc: Global,
    objects: &[Object],
) -> Result<Definitions<'_>, OrMemory<LinkFault>>
    requires { length objects.now < 2 ^ 32 }
    ensures { DefinesAll objects.now result }
{
    let mut definitions = Definitions::new(alloc);
    let mut start = 0;
    for (number, object) in objects.iter().enumerate() {
        let functions = object.functions();
        define_functions(alloc, &mut definitions, functions, number as u32, start)?;
        start += functions.len();
    }
    Ok(definitions)
}
