//! The pass over the functions of a unit. A unit keeps what it keeps: symbols stay, and the bodies name slots and calls that are there.

ghost use Rattle.std.specs.Prelude.{◌≡◌, IfOk, map};
ghost use Rattle.unit_ir.specs.Units.{fn_view, unit_view};
ghost use Rattle.opt_known.specs.Known as plain;

use crate::facts::Facts;
use crate::stmts::known_stmts;
use sqlite_items::Items;
use std::alloc::{AllocError, Global};
use unit_ir::{IrFn, IrUnit};

fn known_fn(alloc: Global, function: IrFn) -> Result<IrFn, AllocError>
    ensures { IfOk result (λ r. fn_view r ≡ plain.known_fn (fn_view function)) }
{
    let IrFn {
        symbol,
        external,
        params,
        result: results,
        slots,
        body,
    } = function;
    let body = known_stmts(alloc, body, Facts::none(alloc))?;
    Ok(IrFn {
        symbol,
        external,
        params,
        result: results,
        slots,
        body,
    })
}

// The functions from the last to the first; what is changed stands turned round.
fn known_fns(alloc: Global, functions: Items<IrFn>) -> Result<Items<IrFn>, AllocError>
    ensures { IfOk result (λ r. map fn_view r ≡ map plain.known_fn (map fn_view functions)) }
{
    let mut functions = functions;
    let mut changed = Vec::with_capacity(alloc, functions.len())?;
    while let Some(last) = functions.pop() {
        changed.push(known_fn(alloc, last)?)?;
    }
    changed.reverse();
    Ok(Items::from_vec(changed))
}

/// In each function, loads of slots whose word is known are replaced. The functions, their symbols and the externals stay.
pub fn use_known(alloc: Global, unit: IrUnit) -> Result<IrUnit, AllocError>
    ensures { IfOk result (λ u. unit_view u ≡ plain.known_unit (unit_view unit)) }
{
    let (functions, externals) = unit.into_parts();
    let functions = known_fns(alloc, functions)?;
    Ok(IrUnit::new(functions, externals))
}
