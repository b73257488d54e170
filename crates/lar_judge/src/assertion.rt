//! What has no place in a `static_assert`.
ghost use Rattle.std.specs.Prelude.{◌≡◌, [], Option, List};
ghost use Rattle.type_table.specs.declared.row.Row.{Row};
ghost use Rattle.lar_typed.specs.Exprs.{PlainExpr};
ghost use Rattle.lar_rules.specs.Fault.{Fault, least};
ghost use Rattle.lar_rules.specs.Judged.{Env};
ghost use Rattle.lar_rules.specs.Judged as rules;
ghost use Rattle.lar_judge.specs.Here.{IsEnv};
ghost use Rattle.lar_judge.specs.Known.{typed_in, TypedWithin, Knows};

use crate::{Here, Judged};
use lar_source::{Code, Span};
use lar_told::First;
use lar_typed::TypedExpr;
use std::alloc::Global;

/// A call, a tuple, `new` or a field, none of which stands in a `static_assert`.
pub fn unless_asserting(
    alloc: Global,
    first: &mut First,
    here: &Here<'_>,
    asserting: bool,
    at: Span,
    e: Option<TypedExpr>,
) -> Judged
    ensures known { (rows : List Row) (env : Env) (faults : List Fault) → IsEnv here.now asserting env → TypedWithin rows e → Knows rows result (rules.unless_asserting env at (typed_in rows e) faults) }
    ensures told { (env : Env) (x : Option PlainExpr) → IsEnv here.now asserting env → first.new ≡ least first.old (rules.unless_asserting env at x []).faults }
{
    if asserting {
        first.note_none(alloc, here.file, at, Code::NoSuchPlace);
        return Judged { at, typed: None };
    }
    Judged { at, typed: e }
}
