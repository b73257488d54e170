//! Numbers, truth values and brackets.
ghost use Rattle.std.specs.Prelude.{◌≡◌, [], Some, IfOk, OnOk};
ghost use Rattle.type_table.specs.TypeOf as type;
ghost use Rattle.type_table.specs.Rows.{Keeps};
ghost use Rattle.lar_typed.specs.Exprs as typed;
ghost use Rattle.lar_rules.specs.Fault.{least};
ghost use Rattle.lar_rules.specs.Judged.{Env};
ghost use Rattle.lar_rules.specs.Exprs as rules;
ghost use Rattle.lar_judge.specs.Here.{IsEnv};
ghost use Rattle.lar_judge.specs.Known.{Knows};
ghost use Rattle.lar_judge.specs.Lists.{JudgedWithin, knowns};

use crate::operators::{bool_type, int_type};
use crate::parts::tuple;
use crate::{Here, Judged};
use lar_source::Span;
use lar_told::First;
use lar_typed::TypedExpr;
use std::alloc::{AllocError, Global};
use type_table::Types;

/// A number.
pub fn number(types: &mut Types, at: Span, value: i64) -> Result<Judged, AllocError>
    ensures kept { Keeps types.old types.new }
    ensures known { IfOk result (λ r. Knows types.new r (record { at = at; typed = Some (typed.int type.int value); faults = [] })) }
{
    let of = int_type(types)?;
    Ok(Judged {
        at,
        typed: Some(TypedExpr::int(of, value)),
    })
}

/// `true` or `false`.
pub fn truth(types: &mut Types, at: Span, value: bool) -> Result<Judged, AllocError>
    ensures kept { Keeps types.old types.new }
    ensures known { IfOk result (λ r. Knows types.new r (record { at = at; typed = Some (typed.truth type.bool value); faults = [] })) }
{
    let of = bool_type(types)?;
    Ok(Judged {
        at,
        typed: Some(TypedExpr::truth(of, value)),
    })
}

/// A bracket: one expression in it is what it is, and none or several are a tuple.
pub fn bracket(
    alloc: Global,
    types: &mut Types,
    first: &mut First,
    here: &Here<'_>,
    asserting: bool,
    at: Span,
    parts: Vec<Judged>,
) -> Result<Judged, AllocError>
    requires { JudgedWithin types.old parts.items }
    ensures kept { Keeps types.old types.new }
    ensures known { IfOk result (λ r. (env : Env) → IsEnv here.now asserting env → Knows types.new r (rules.judged_paren env at (knowns types.old parts.items))) }
    ensures told { (env : Env) → IsEnv here.now asserting env → OnOk result (first.new ≡ least first.old (rules.judged_paren env at (knowns types.old parts.items)).faults) }
{
    if parts.len() != 1 {
        return tuple(alloc, types, first, here, asserting, at, parts);
    }
    let mut parts = parts;
    let typed = match parts.pop() {
        Some(part) => part.typed,
        None => None,
    };
    Ok(Judged { at, typed })
}
