//! Arguments against the types of parameters.
ghost use Rattle.std.specs.Prelude.{◌≡◌, OnOk};
ghost use Rattle.lar_rules.specs.Fault.{least};
ghost use Rattle.lar_rules.specs.Written.{Site};
ghost use Rattle.lar_judge.specs.Here.{IsHere};
ghost use Rattle.lar_judge.specs.Known.{type_if, typed_in, IfWithin, TypedWithin};
ghost use Rattle.lar_judge.specs.Lists.{JudgedWithin, knowns};
ghost use Rattle.lar_judge.specs.Wanted.{types_if, AllIfWithin, misfits, fits_if, fits_all};

use crate::fit::{has_type, misfit_if};
use crate::{Here, Judged};
use lar_told::First;
use lar_typed::TypedExpr;
use std::alloc::{AllocError, Global};
use type_table::Types;

fn fits(types: &Types, wanted: Option<usize>, e: &Option<TypedExpr>) -> bool
    requires wanted { IfWithin types.now wanted }
    requires e { TypedWithin types.now e.now }
    ensures { result ≡ fits_if (type_if types.now wanted) (typed_in types.now e.now) }
{
    match wanted {
        None => false,
        Some(wanted) => match e {
            None => false,
            Some(e) => has_type(types, wanted, e),
        },
    }
}

/// Notes each expression that has another type than is wanted of it, as far as there are types.
pub fn all_misfits(
    alloc: Global,
    types: &Types,
    first: &mut First,
    here: &Here<'_>,
    wanted: &[Option<usize>],
    parts: &[Judged],
) -> Result<(), AllocError>
    requires wanted { AllIfWithin types.now wanted.now }
    requires parts { JudgedWithin types.now parts.now }
    ensures { (s : Site) → IsHere here.now s → OnOk result (first.new ≡ least first.old (misfits s (types_if types.now wanted.now) (knowns types.now parts.now))) }
{
    let mut n = 0;
    while n < wanted.len() && n < parts.len() {
        misfit_if(alloc, types, first, here, wanted[n], &parts[n])?;
        n += 1;
    }
    Ok(())
}

/// Whether there is a type for each expression, and each has it.
pub fn all_fit(types: &Types, wanted: &[Option<usize>], parts: &[Judged]) -> bool
    requires wanted { AllIfWithin types.now wanted.now }
    requires parts { JudgedWithin types.now parts.now }
    ensures { result ≡ fits_all (types_if types.now wanted.now) (knowns types.now parts.now) }
{
    if wanted.len() != parts.len() {
        return false;
    }
    for n in 0..parts.len() {
        if !fits(types, wanted[n], &parts[n].typed) {
            return false;
        }
    }
    true
}
