//! The one spelling of an object, in the newest version.

ghost use Rattle.std.specs.Prelude.{◌≡◌, ◌<◌, ◌^◌, ◌++◌, IfOk, OnOk, length};
ghost use Rattle.std.specs.List.{AllByRecursion};
ghost use Rattle.object_format.specs.Object.{IsSymbol, symbol_spelling, unlinked_spelling, functions_spelling, symbols_spelling, object_spelling};
ghost use Rattle.object_format.specs.declared.version.Version.TheVariants.{Two};

use crate::image_writing::{bytes_with_room, write_function};
use crate::{Object, ObjectFn};
use lar_bytes::{Bytes, Text};
use std::alloc::{AllocError, Global};

fn write_symbol(out: &mut Bytes, symbol: &Text) -> Result<(), AllocError>
    requires { length symbol.now < 2 ^ 32 }
    ensures { OnOk result (out.new ≡ out.old ++ symbol_spelling symbol.now) }
{
    let len = symbol.len() as u32;
    out.append(&len.to_be_bytes())?;
    out.append(symbol.as_str().as_bytes())
}

fn write_named(out: &mut Bytes, function: &ObjectFn) -> Result<(), AllocError>
    ensures { OnOk result (out.new ≡ out.old ++ unlinked_spelling Two function.now) }
{
    write_symbol(out, function.symbol())?;
    out.push(u8::from(function.is_external()))?;
    write_function(out, function.body())
}

/// The functions behind their count.
fn write_functions(out: &mut Bytes, functions: &[ObjectFn]) -> Result<(), AllocError>
    requires { length functions.now < 2 ^ 32 }
    ensures { OnOk result (out.new ≡ out.old ++ functions_spelling Two functions.now) }
{
    let count = functions.len() as u32;
    out.append(&count.to_be_bytes())?;
    for function in functions {
        write_named(out, function)?;
    }
    Ok(())
}

/// The externals behind their count.
fn write_externals(out: &mut Bytes, externals: &[Text]) -> Result<(), AllocError>
    requires count { length externals.now < 2 ^ 32 }
    requires symbols { AllByRecursion IsSymbol externals.now }
    ensures { OnOk result (out.new ≡ out.old ++ symbols_spelling externals.now) }
{
    let count = externals.len() as u32;
    out.append(&count.to_be_bytes())?;
    for symbol in externals {
        write_symbol(out, symbol)?;
    }
    Ok(())
}

/// How many bytes functions have in an object's spelling, where a machine's number can say it.
fn room_for(functions: &[ObjectFn]) -> usize {
    let mut room = 0usize;
    for function in functions {
        let front = function.symbol().len().saturating_add(12);
        room = room
            .saturating_add(function.code().len())
            .saturating_add(front);
    }
    room
}

/// How many bytes externals have there.
fn room_for_externals(externals: &[Text]) -> usize {
    let mut room = 0usize;
    for external in externals {
        room = room.saturating_add(external.len()).saturating_add(4);
    }
    room
}

/// The one spelling of an object.
pub fn write_object(alloc: Global, object: &Object) -> Result<Bytes, AllocError>
    ensures { IfOk result (λ bytes. bytes ≡ object_spelling object.now) }
{
    let functions = room_for(object.functions());
    let externals = room_for_externals(object.externals());
    let mut out = bytes_with_room(
        alloc,
        functions.saturating_add(externals).saturating_add(14),
    )?;
    out.append(b"LROB\x00\x02")?;
    write_functions(&mut out, object.functions())?;
    write_externals(&mut out, object.externals())?;
    Ok(out)
}
