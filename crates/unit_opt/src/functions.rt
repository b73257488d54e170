//! The passes over the functions of a unit. A unit keeps what it keeps: symbols stay, and the bodies name slots and calls that are there.

ghost use Rattle.std.specs.Prelude.{◌≡◌, IfOk, map};
ghost use Rattle.unit_ir.specs.Units.{fn_view, unit_view};
ghost use Rattle.unit_opt.specs.Fold as plain;

use crate::fold_stmts::fold_stmts;
use sqlite_items::Items;
use std::alloc::{AllocError, Global};
use unit_ir::{IrFn, IrUnit};

fn fold_fn(alloc: Global, function: IrFn) -> Result<IrFn, AllocError>
    ensures { IfOk result (λ r. fn_view r ≡ plain.fold_fn (fn_view function)) }
{
    let IrFn {
        symbol,
        external,
        params,
        result: results,
        slots,
        body,
    } = function;
    let body = fold_stmts(alloc, body)?;
    Ok(IrFn {
        symbol,
        external,
        params,
        result: results,
        slots,
        body,
    })
}

// The functions from the last to the first; what is folded stands turned round.
fn fold_fns(alloc: Global, functions: Items<IrFn>) -> Result<Items<IrFn>, AllocError>
    ensures { IfOk result (λ r. map fn_view r ≡ map plain.fold_fn (map fn_view functions)) }
{
    let mut functions = functions;
    let mut folded = Vec::with_capacity(alloc, functions.len())?;
    while let Some(last) = functions.pop() {
        folded.push(fold_fn(alloc, last)?)?;
    }
    folded.reverse();
    Ok(Items::from_vec(folded))
}

/// Constants are folded in each function.
pub(crate) fn fold_unit(alloc: Global, unit: IrUnit) -> Result<IrUnit, AllocError>
    ensures { IfOk result (λ u. unit_view u ≡ plain.fold_unit (unit_view unit)) }
{
    let (functions, externals) = unit.into_parts();
    let functions = fold_fns(alloc, functions)?;
    Ok(IrUnit::new(functions, externals))
}
