//! Whether an expression has the type that is wanted.
ghost use Rattle.std.specs.Prelude.{◌≡◌, ◌<◌, length, OnOk};
ghost use Rattle.type_table.specs.Rows.{type_at};
ghost use Rattle.lar_typed.specs.Exprs.{label_of};
ghost use Rattle.lar_typed.specs.ExprView.{expr_view};
ghost use Rattle.lar_typed.specs.SameType.{same_type};
ghost use Rattle.lar_typed.specs.Within.{ExprWithin};
ghost use Rattle.lar_rules.specs.Fault.{least};
ghost use Rattle.lar_rules.specs.Written.{Site};
ghost use Rattle.lar_rules.specs.Judged as rules;
ghost use Rattle.lar_judge.specs.Here.{IsHere};
ghost use Rattle.lar_judge.specs.Known.{expr_in, known, typed_in, type_if, TypedWithin, IfWithin};

use crate::{Here, Judged};
use lar_told::First;
use lar_typed::{Node, TypedExpr};
use std::alloc::{AllocError, Global};
use type_table::Types;

/// Whether two numbers stand for one type.
pub fn is_same(types: &Types, a: usize, b: usize) -> bool
    requires a { a < length types.now }
    requires b { b < length types.now }
    ensures { result ≡ same_type (type_at types.now a) (type_at types.now b) }
{
    type_table::laws::equal_types();
    lar_typed::laws::same_types();
    let _rows = types.len();
    a == b
}

/// The type of an expression, as the number of a row.
pub fn label(e: &TypedExpr) -> usize
    ensures { result ≡ label_of (expr_view e.now) }
{
    match &e.node {
        Node::Int(_) => e.of,
        Node::Bool(_) => e.of,
        Node::Local(_) => e.of,
        Node::Const(_) => e.of,
        Node::Generic(_) => e.of,
        Node::Tuple(_) => e.of,
        Node::New(_) => e.of,
        Node::Field(_, _) => e.of,
        Node::Unary(_, _) => e.of,
        Node::Binary(_, _, _) => e.of,
        Node::Call(_) => e.of,
    }
}

/// Whether an expression has this type.
#[tactic(auto, using(crate::proofs::Labels::label_within, crate::proofs::Labels::same_label))]
pub fn has_type(types: &Types, wanted: usize, e: &TypedExpr) -> bool
    requires wanted { wanted < length types.now }
    requires within { ExprWithin (length types.now) (expr_view e.now) }
    ensures { result ≡ same_type (label_of (expr_in types.now e.now)) (type_at types.now wanted) }
{
    is_same(types, label(e), wanted)
}

/// The expression, where it has this type.
pub fn fitting(types: &Types, wanted: usize, e: Option<TypedExpr>) -> Option<TypedExpr>
    requires wanted { wanted < length types.now }
    requires within { TypedWithin types.now e }
    ensures within { TypedWithin types.now result }
    ensures is { typed_in types.now result ≡ rules.fitting_of (type_at types.now wanted) (typed_in types.now e) }
{
    match e {
        Some(e) if has_type(types, wanted, &e) => Some(e),
        _ => None,
    }
}

/// Notes where an expression has another type than is wanted. Nothing is said of one that has a fault in it.
pub fn misfit(
    alloc: Global,
    types: &Types,
    first: &mut First,
    here: &Here<'_>,
    wanted: usize,
    e: &Judged,
) -> Result<(), AllocError>
    requires wanted { wanted < length types.now }
    requires within { TypedWithin types.now e.now.typed }
    ensures { (s : Site) → IsHere here.now s → OnOk result (first.new ≡ least first.old (rules.misfit s (type_at types.now wanted) (known types.now e.now))) }
{
    match &e.typed {
        None => Ok(()),
        Some(x) => {
            if has_type(types, wanted, x) {
                return Ok(());
            }
            here.note_other_type(alloc, types, first, e.at, wanted, label(x))
        }
    }
}

/// The expression, where it has this type and the type is known.
pub fn fitting_if(types: &Types, wanted: Option<usize>, e: Option<TypedExpr>) -> Option<TypedExpr>
    requires wanted { IfWithin types.now wanted }
    requires within { TypedWithin types.now e }
    ensures within { TypedWithin types.now result }
    ensures is { (d : rules.Judged) → d.typed ≡ typed_in types.now e → typed_in types.now result ≡ rules.fitting_if (type_if types.now wanted) d }
{
    match wanted {
        Some(wanted) => fitting(types, wanted, e),
        None => None,
    }
}

/// Notes where an expression has another type than is wanted, if that is known.
#[tactic(auto, using(crate::proofs::Least::least_none))]
pub fn misfit_if(
    alloc: Global,
    types: &Types,
    first: &mut First,
    here: &Here<'_>,
    wanted: Option<usize>,
    e: &Judged,
) -> Result<(), AllocError>
    requires wanted { IfWithin types.now wanted }
    requires within { TypedWithin types.now e.now.typed }
    ensures { (s : Site) → IsHere here.now s → OnOk result (first.new ≡ least first.old (rules.misfit_if s (type_if types.now wanted) (known types.now e.now))) }
{
    match wanted {
        Some(wanted) => misfit(alloc, types, first, here, wanted, e),
        None => Ok(()),
    }
}
