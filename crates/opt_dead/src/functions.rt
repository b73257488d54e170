//! The pass over the functions of a unit. A unit keeps what it keeps: symbols stay, and the bodies name slots and calls that are there.

ghost use Rattle.std.specs.Prelude.{◌≡◌, IfOk, map};
ghost use Rattle.unit_ir.specs.Units.{fn_view, unit_view};
ghost use Rattle.opt_dead.specs.Dead as plain;

use crate::stmts::dead_stmts;
use opt_slots::{SlotSet, note_loads};
use sqlite_items::Items;
use std::alloc::{AllocError, Global};
use unit_ir::{IrFn, IrUnit};

fn dead_fn(alloc: Global, function: IrFn) -> Result<IrFn, AllocError>
    ensures { IfOk result (λ r. fn_view r ≡ plain.dead_fn (fn_view function)) }
{
    let IrFn {
        symbol,
        external,
        params,
        result: results,
        slots,
        body,
    } = function;
    let mut loaded = SlotSet::empty();
    note_loads(body.as_slice(), &mut loaded);
    let body = dead_stmts(alloc, body, &loaded)?;
    Ok(IrFn {
        symbol,
        external,
        params,
        result: results,
        slots,
        body,
    })
}

// The functions from the last to the first; what is changed stands turned round.
fn dead_fns(alloc: Global, functions: Items<IrFn>) -> Result<Items<IrFn>, AllocError>
    ensures { IfOk result (λ r. map fn_view r ≡ map plain.dead_fn (map fn_view functions)) }
{
    let mut functions = functions;
    let mut changed = Vec::with_capacity(alloc, functions.len())?;
    while let Some(last) = functions.pop() {
        changed.push(dead_fn(alloc, last)?)?;
    }
    changed.reverse();
    Ok(Items::from_vec(changed))
}

/// In each function, Stores into slots that it never loads go, and so do Evals of which nothing is seen. The functions, their symbols
/// and the externals stay.
pub fn drop_dead(alloc: Global, unit: IrUnit) -> Result<IrUnit, AllocError>
    ensures { IfOk result (λ u. unit_view u ≡ plain.dead_unit (unit_view unit)) }
{
    let (functions, externals) = unit.into_parts();
    let functions = dead_fns(alloc, functions)?;
    Ok(IrUnit::new(functions, externals))
}
