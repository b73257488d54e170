//! The one text of an input, written into one buffer that is reserved whole.
//!
//! Each part is gone through twice, once for its length and once for its bytes, so the whole costs time in the length of the text. Calls
//! nest as deep as expressions and blocks do; members of lists are gone through by loops.
ghost use Rattle.std.specs.Prelude.{◌≡◌, ◌++◌, ◌∷◌, [], OnOk, IfOk, length, map};
ghost use Rattle.std.specs.List.{flat_map};
ghost use Rattle.unit_input.specs.InputView.{fn_view, external_view, input_view};
ghost use Rattle.unit_input.specs.Spelling as text;

mod exprs;
mod stmts;
#[cfg(test)]
mod tests;

use crate::{ExternalFn, UnitFn, UnitInput};
use exprs::{put_byte, put_long_count, put_truth, put_two};
use lar_bytes::{Bytes, Text};
use std::alloc::{AllocError, Global};
use stmts::{block_len, put_block};

// How long the text of a function is.
fn function_len(function: &UnitFn) -> usize {
    block_len(function.body.as_slice())
        .saturating_add(function.symbol.len())
        .saturating_add(function.locals.len().saturating_mul(2))
        .saturating_add(12)
}

// How long the text of an input is.
fn input_len(input: &UnitInput) -> usize {
    let mut len = 15usize;
    for function in input.functions() {
        len = len.saturating_add(function_len(function));
    }
    for external in input.externals() {
        len = len.saturating_add(external.symbol.len()).saturating_add(8);
    }
    len
}

fn put_symbol(out: &mut Vec<u8>, symbol: &Text) -> Result<(), AllocError>
    ensures { OnOk result (out.new.items ≡ out.old.items ++ text.spell_symbol symbol.now) }
{
    put_long_count(out, symbol.len())?;
    out.extend_from_slice(symbol.as_str().as_bytes())?;
    Ok(())
}

fn put_widths(out: &mut Vec<u8>, widths: &[u16]) -> Result<(), AllocError>
    ensures { OnOk result (out.new.items ≡ out.old.items ++ flat_map text.two widths.now) }
{
    for width in widths {
        put_two(out, *width)?;
    }
    Ok(())
}

// What stands before the locals of a function.
fn put_head(out: &mut Vec<u8>, function: &UnitFn) -> Result<(), AllocError>
    ensures { OnOk result (out.new.items ≡ out.old.items ++ (text.spell_symbol function.now.symbol ++ (text.truth_byte function.now.external ∷ (text.two function.now.result ++ function.now.params ∷ [])))) }
{
    put_symbol(out, &function.symbol)?;
    put_truth(out, function.external)?;
    put_two(out, function.result)?;
    put_byte(out, function.params)?;
    Ok(())
}

fn put_function(out: &mut Vec<u8>, function: &UnitFn) -> Result<(), AllocError>
    ensures { OnOk result (out.new.items ≡ out.old.items ++ text.spell_fn (fn_view function.now)) }
{
    put_head(out, function)?;
    put_long_count(out, function.locals.len())?;
    put_widths(out, function.locals.as_slice())?;
    put_block(out, function.body.as_slice())?;
    Ok(())
}

fn put_external(out: &mut Vec<u8>, external: &ExternalFn) -> Result<(), AllocError>
    ensures { OnOk result (out.new.items ≡ out.old.items ++ text.spell_external (external_view external.now)) }
{
    put_symbol(out, &external.symbol)?;
    put_two(out, external.params)?;
    put_two(out, external.result)?;
    Ok(())
}

// Functions behind their count.
fn put_functions(out: &mut Vec<u8>, functions: &[UnitFn]) -> Result<(), AllocError>
    ensures { OnOk result (out.new.items ≡ out.old.items ++ (text.four (length functions.now) ++ flat_map text.spell_fn (map fn_view functions.now))) }
{
    put_long_count(out, functions.len())?;
    for function in functions {
        put_function(out, function)?;
    }
    Ok(())
}

// Externals behind their count.
fn put_externals(out: &mut Vec<u8>, externals: &[ExternalFn]) -> Result<(), AllocError>
    ensures { OnOk result (out.new.items ≡ out.old.items ++ (text.four (length externals.now) ++ flat_map text.spell_external (map external_view externals.now))) }
{
    put_long_count(out, externals.len())?;
    for external in externals {
        put_external(out, external)?;
    }
    Ok(())
}

/// The text of an input.
pub fn spell(alloc: Global, input: &UnitInput) -> Result<Bytes, AllocError>
    ensures { IfOk result (λ spelled. spelled ≡ text.spell (input_view input.now)) }
{
    let mut out = Vec::with_capacity(alloc, input_len(input))?;
    out.extend_from_slice(b"LRUI\x00\x01")?;
    put_byte(&mut out, input.level())?;
    put_functions(&mut out, input.functions())?;
    put_externals(&mut out, input.externals())?;
    Ok(Bytes::from_vec(out))
}
