//! The pass over the functions of a unit. A unit keeps what it keeps: symbols stay, and the bodies name slots and calls that are there.

ghost use Rattle.std.specs.Prelude.{◌≡◌, IfOk, map};
ghost use Rattle.unit_ir.specs.Units.{fn_view, unit_view};
ghost use Rattle.opt_inline.specs.Inline as plain;
ghost use Rattle.opt_inline.specs.Places.{SmallsInRange};
ghost use Rattle.opt_inline.specs.SmallView.{smalls_view};

use crate::small::{Small, smalls};
use crate::stmts::inlined_stmts;
use sqlite_items::Items;
use std::alloc::{AllocError, Global};
use unit_ir::{IrFn, IrUnit};

fn inlined_fn(alloc: Global, function: IrFn, small: &[Option<Small>]) -> Result<IrFn, AllocError>
    requires { SmallsInRange (smalls_view small.now) }
    ensures { IfOk result (λ r. fn_view r ≡ plain.inlined_fn (smalls_view small.now) (fn_view function)) }
{
    let IrFn {
        symbol,
        external,
        params,
        result: results,
        slots,
        body,
    } = function;
    let mut behind = slots;
    let body = inlined_stmts(alloc, body, &mut behind, small)?;
    Ok(IrFn {
        symbol,
        external,
        params,
        result: results,
        slots: behind,
        body,
    })
}

// The functions from the last to the first; what is changed stands turned round.
fn inlined_fns(
    alloc: Global,
    functions: Items<IrFn>,
    small: &[Option<Small>],
) -> Result<Items<IrFn>, AllocError>
    requires { SmallsInRange (smalls_view small.now) }
    ensures { IfOk result (λ r. map fn_view r ≡ map (plain.inlined_fn (smalls_view small.now)) (map fn_view functions)) }
{
    let mut functions = functions;
    let mut changed = Vec::with_capacity(alloc, functions.len())?;
    while let Some(last) = functions.pop() {
        changed.push(inlined_fn(alloc, last, small)?)?;
    }
    changed.reverse();
    Ok(Items::from_vec(changed))
}

/// In each function, calls of small functions of the unit are replaced by what these give, as far as there is room for slots. The
/// functions, their symbols and the externals stay.
pub fn inline_calls(alloc: Global, unit: IrUnit) -> Result<IrUnit, AllocError>
    ensures { IfOk result (λ u. unit_view u ≡ plain.inlined_unit (unit_view unit)) }
{
    let (functions, externals) = unit.into_parts();
    let small = smalls(alloc, functions.as_slice())?;
    let functions = inlined_fns(alloc, functions, small.as_slice())?;
    Ok(IrUnit::new(functions, externals))
}
