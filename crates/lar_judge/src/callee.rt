//! Calls.
ghost use Rattle.std.specs.Prelude.{◌≡◌, if◌then◌else◌, List, None, Option, IfOk, OnOk};
ghost use Rattle.type_table.specs.declared.row.Row.{Row};
ghost use Rattle.lar_rules.specs.Declared.{Function};
ghost use Rattle.lar_rules.specs.Fault.{least};
ghost use Rattle.lar_rules.specs.Judged.{Env, all_typed};
ghost use Rattle.lar_rules.specs.Written.{Given};
ghost use Rattle.lar_rules.specs.Exprs as rules;
ghost use Rattle.lar_judge.specs.Calls.{CalleeIs, CalleeWithin, call_rest};
ghost use Rattle.lar_judge.specs.Here.{IsEnv};
ghost use Rattle.lar_judge.specs.Known.{type_if, typed_in, IfWithin, TypedWithin, Knows};
ghost use Rattle.lar_judge.specs.Wanted.{types_if, AllIfWithin, fits_all};
ghost use Rattle.lar_judge.specs.Lists.{all_in, AllWithin, JudgedWithin, knowns};

use crate::assertion::unless_asserting;
use crate::parts::gathered;
use crate::passing::{all_fit, all_misfits};
use crate::{Here, Judged};
use lar_told::First;
use lar_tree::Path;
use lar_typed::TypedExpr;
use sqlite_items::Items;
use std::alloc::{AllocError, Global};
use type_table::Types;

/// What is known of a function that is called. Each type is the number of a row, where it is known.
#[derive(Drop)]
pub struct Callee {
    /// The function's place among all functions.
    pub number: usize,
    /// The list of the arguments for its generics.
    pub generics: Option<usize>,
    /// The types of its parameters, with the generics of the call in place of its own.
    pub wanted: Vec<Option<usize>>,
    /// The type of its result, likewise.
    pub outcome: Option<usize>,
}

/// The arguments, where each has its type.
pub fn passed(
    alloc: Global,
    types: &Types,
    wanted: &[Option<usize>],
    parts: Vec<Judged>,
) -> Result<Option<Items<TypedExpr>>, AllocError>
    requires wanted { AllIfWithin types.now wanted.now }
    requires parts { JudgedWithin types.now parts.items }
    ensures within { IfOk result (λ r. AllWithin types.now r) }
    ensures is { IfOk result (λ r. all_in types.now r ≡ (if fits_all (types_if types.now wanted.now) (knowns types.now parts.items) then all_typed (knowns types.now parts.items) else None)) }
{
    if !all_fit(types, wanted, &parts) {
        return Ok(None);
    }
    gathered(alloc, parts)
}

fn call_typed(
    alloc: Global,
    callee: &Callee,
    args: Option<Items<TypedExpr>>,
    path: &Path,
) -> Result<Option<TypedExpr>, AllocError>
    ensures within { IfOk result (λ r. (rows : List Row) → IfWithin rows callee.now.generics → IfWithin rows callee.now.outcome → AllWithin rows args → TypedWithin rows r) }
    ensures is { IfOk result (λ r. (rows : List Row) → typed_in rows r ≡ rules.call_typed callee.now.number path.now.first.span (type_if rows callee.now.generics) (type_if rows callee.now.outcome) (all_in rows args)) }
{
    match callee.generics {
        None => Ok(None),
        Some(generics) => match callee.outcome {
            None => Ok(None),
            Some(outcome) => match args {
                None => Ok(None),
                Some(args) => {
                    let at = path.first.span;
                    let made = TypedExpr::call(alloc, outcome, callee.number, generics, args, at)?;
                    Ok(Some(made))
                }
            },
        },
    }
}

/// A call whose arguments are judged.
pub fn call(
    alloc: Global,
    types: &Types,
    first: &mut First,
    here: &Here<'_>,
    asserting: bool,
    path: &Path,
    callee: Option<Callee>,
    parts: Vec<Judged>,
) -> Result<Judged, AllocError>
    requires callee { CalleeWithin types.now callee }
    requires parts { JudgedWithin types.now parts.items }
    ensures known { IfOk result (λ r. (env : Env) (gs : List Given) (f : Option Function) → IsEnv here.now asserting env → CalleeIs types.now env.site path.now gs callee f → Knows types.now r (rules.judged_call env path.now gs (knowns types.now parts.items) f)) }
    ensures told { (env : Env) (gs : List Given) (f : Option Function) → IsEnv here.now asserting env → CalleeIs types.now env.site path.now gs callee f → OnOk result (first.new ≡ least first.old (call_rest env path.now gs (knowns types.now parts.items) f)) }
{
    let at = path.first.span;
    match callee {
        None => Ok(unless_asserting(alloc, first, here, asserting, at, None)),
        Some(callee) => {
            all_misfits(alloc, types, first, here, &callee.wanted, &parts)?;
            let args = passed(alloc, types, &callee.wanted, parts)?;
            let typed = call_typed(alloc, &callee, args, path)?;
            Ok(unless_asserting(alloc, first, here, asserting, at, typed))
        }
    }
}
