//! The optimiser: the intermediate form of a unit, rewritten into one that does the same with less.
//!
//! Each pass is one function on plain trees in `specs/`, and the code answers just that. [`optimise`] composes them by level:
//! level 0 changes nothing, level 1 folds constants, and level 2 folds, puts small functions in place of their calls, folds,
//! uses known words, folds, and drops dead stores. Every pass takes trees apart and makes them again, so that nothing is copied
//! but what is put in place.
//! The crate stands on unit_ir, and on opt_inline, opt_known and opt_dead, the passes of level 2.
#![tactic(auto)]

ghost use Rattle.std.specs.Prelude.{◌≡◌, ◌≤◌, IfOk};
ghost use Rattle.unit_ir.specs.Units.{unit_view};
ghost use Rattle.unit_opt.specs.Optimised as plain;
ghost use Rattle.unit_opt.specs.Optimised.{optimised};

mod fold;
mod fold_stmts;
mod functions;

use opt_dead::drop_dead;
use opt_inline::inline_calls;
use opt_known::use_known;
use std::alloc::{AllocError, Global};
use unit_ir::IrUnit;

/// The unit at a level of the optimiser. It keeps its functions, their symbols and its externals.
pub fn optimise(alloc: Global, unit: IrUnit, level: u8) -> Result<IrUnit, AllocError>
    requires { level ≤ 2 }
    ensures { IfOk result (λ u. unit_view u ≡ optimised level (unit_view unit)) }
{
    match level {
        0 => Ok(unit),
        1 => functions::fold_unit(alloc, unit),
        _ => all_passes(alloc, unit),
    }
}

// The passes of level 2.
fn all_passes(alloc: Global, unit: IrUnit) -> Result<IrUnit, AllocError>
    ensures { IfOk result (λ u. unit_view u ≡ plain.all_passes (unit_view unit)) }
{
    let unit = functions::fold_unit(alloc, unit)?;
    let unit = inline_calls(alloc, unit)?;
    let unit = functions::fold_unit(alloc, unit)?;
    let unit = use_known(alloc, unit)?;
    let unit = functions::fold_unit(alloc, unit)?;
    let unit = drop_dead(alloc, unit)?;
    Ok(unit)
}

#[cfg(test)]
mod tests;
