//! What becomes of a function.
ghost use Rattle.std.specs.Prelude.{◌≡◌, ◌<◌, ◌≤◌, ◌^◌, map, length, IfOk, OnOk};
ghost use Rattle.std.specs.List.{AllByRecursion};
ghost use Rattle.lar_typed.specs.TreeView.{function_view};
ghost use Rattle.unit_input.specs.InputView.{fn_view};
ghost use Rattle.closed_input.specs.Held.{IsHeldFn};
ghost use Rattle.unit_close.specs.Measures.{IsRow};
ghost use Rattle.unit_close.specs.Sight.{sight, IsAround};
ghost use Rattle.unit_close.specs.Made.{width_at};
ghost use Rattle.unit_close.specs.Functions.{made_fn, FnReady};

use crate::around::Around;
use crate::stmts::close_stmts;
use lar_bytes::Text;
use lar_typed::TypedFunction;
use sqlite_items::Items;
use std::alloc::{AllocError, Global};
use unit_input::UnitFn;

/// Tells whether a list is short enough for its count in an input; a longer one is no list that fits beside its unit in a
/// memory, so it counts as want of memory.
pub(crate) fn short_enough(len: usize) -> Result<(), AllocError>
    ensures { OnOk result (len < 2 ^ 32) }
{
    if len > u32::MAX as usize {
        return Err(AllocError);
    }
    Ok(())
}

/// How many words each local has.
fn local_widths(alloc: Global, around: &Around, locals: &[usize]) -> Result<Items<u16>, AllocError>
    requires around { IsAround around.now }
    requires rows { AllByRecursion (IsRow around.now.measure.types.now) locals.now }
    ensures { IfOk result (λ widths. widths ≡ map (width_at (sight around.now)) locals.now) }
{
    let mut widths = Items::new(alloc);
    for local in locals {
        widths.push(around.measure.width(around.widths, *local))?;
    }
    Ok(widths)
}

/// What becomes of a function, where all is at hand that its body names.
pub(crate) fn close_function(
    alloc: Global,
    around: &Around,
    function: &TypedFunction,
    symbol: Text,
    external: bool,
) -> Result<UnitFn, AllocError>
    requires around { IsAround around.now }
    requires ready { FnReady (sight around.now) (function_view function.now) }
    requires symbol { length symbol < 2 ^ 32 }
    requires locals { length function.now.locals < 2 ^ 32 }
    ensures is { IfOk result (λ f. fn_view f ≡ made_fn (sight around.now) symbol external (function_view function.now)) }
    ensures held { IfOk result (λ f. IsHeldFn (fn_view f)) }
{
    let mut next = 0;
    let body = close_stmts(function.body.as_slice(), alloc, around, &mut next)?;
    let locals = local_widths(alloc, around, function.locals.as_slice())?;
    let result = around.measure.width(around.widths, function.outcome);
    Ok(UnitFn {
        symbol,
        external,
        result,
        params: function.params as u8,
        locals,
        body,
    })
}
