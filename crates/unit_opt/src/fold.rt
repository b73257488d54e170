//! Folding of expressions, inner expressions first: an operator on constants becomes its result, and a constant first operand of
//! `And` or `Or` decides. The trees are taken apart and made again, so nothing is copied.

ghost use Rattle.std.specs.Prelude.{◌≡◌, IfOk, map, Some};
ghost use Rattle.unit_ir.specs.ExprView.{expr_view, exprs_view};
ghost use Rattle.unit_opt.specs.Fold as plain;

use sqlite_items::Items;
use std::alloc::{AllocError, Global};
use unit_ir::{Binary, IrExpr, Unary};

/// The number that an expression is.
pub(crate) fn number_of(e: &IrExpr) -> Option<i64>
    ensures { result ≡ plain.number_of (expr_view e.now) }
{
    match e {
        IrExpr::Const(v) => Some(*v),
        _ => None,
    }
}

fn folded1(alloc: Global, op: Unary, a: IrExpr) -> Result<IrExpr, AllocError>
    ensures { IfOk result (λ r. expr_view r ≡ plain.folded1 op (expr_view a) (plain.number_of (expr_view a))) }
{
    match number_of(&a) {
        Some(v) => Ok(IrExpr::constant(op.apply(v))),
        None => IrExpr::unary(alloc, op, a),
    }
}

fn folded2(alloc: Global, op: Binary, a: IrExpr, b: IrExpr) -> Result<IrExpr, AllocError>
    ensures { IfOk result (λ r. expr_view r ≡ plain.folded2 op (expr_view a) (expr_view b) (plain.number_of (expr_view a)) (plain.number_of (expr_view b))) }
{
    if let (Some(x), Some(y)) = (number_of(&a), number_of(&b)) {
        if let Some(v) = op.apply(x, y) {
            return Ok(IrExpr::constant(v));
        }
    }
    IrExpr::binary(alloc, op, a, b)
}

fn folded_and(alloc: Global, a: IrExpr, b: IrExpr) -> Result<IrExpr, AllocError>
    ensures { IfOk result (λ r. expr_view r ≡ plain.folded_and (expr_view a) (expr_view b) (plain.number_of (expr_view a))) }
{
    match number_of(&a) {
        Some(0) => Ok(IrExpr::constant(0)),
        Some(1) => Ok(b),
        _ => IrExpr::and(alloc, a, b),
    }
}

fn folded_or(alloc: Global, a: IrExpr, b: IrExpr) -> Result<IrExpr, AllocError>
    ensures { IfOk result (λ r. expr_view r ≡ plain.folded_or (expr_view a) (expr_view b) (plain.number_of (expr_view a))) }
{
    match number_of(&a) {
        Some(1) => Ok(IrExpr::constant(1)),
        Some(0) => Ok(b),
        _ => IrExpr::or(alloc, a, b),
    }
}

#[cycle(fold)]
pub(crate) fn fold_expr(alloc: Global, e: IrExpr) -> Result<IrExpr, AllocError>
    ensures { IfOk result (λ r. expr_view r ≡ plain.fold_expr (expr_view e)) }
{
    match e {
        IrExpr::Const(v) => Ok(IrExpr::Const(v)),
        IrExpr::Load(slot) => Ok(IrExpr::Load(slot)),
        IrExpr::Op1(op, a) => {
            let a = fold_expr(alloc, a.into_inner())?;
            folded1(alloc, op, a)
        }
        IrExpr::Op2(op, a, b) => {
            let a = fold_expr(alloc, a.into_inner())?;
            let b = fold_expr(alloc, b.into_inner())?;
            folded2(alloc, op, a, b)
        }
        IrExpr::And(a, b) => {
            let a = fold_expr(alloc, a.into_inner())?;
            let b = fold_expr(alloc, b.into_inner())?;
            folded_and(alloc, a, b)
        }
        IrExpr::Or(a, b) => {
            let a = fold_expr(alloc, a.into_inner())?;
            let b = fold_expr(alloc, b.into_inner())?;
            folded_or(alloc, a, b)
        }
        IrExpr::Call(function, args) => Ok(IrExpr::Call(function, fold_exprs(alloc, args)?)),
        IrExpr::Seq(parts) => Ok(IrExpr::Seq(fold_exprs(alloc, parts)?)),
        IrExpr::Bind(first, count, a, b) => {
            let a = fold_expr(alloc, a.into_inner())?;
            let b = fold_expr(alloc, b.into_inner())?;
            IrExpr::bind(alloc, first, count, a, b)
        }
    }
}

// The parts from the last to the first; what is folded stands turned round.
#[cycle(fold)]
fn fold_exprs(alloc: Global, parts: Items<IrExpr>) -> Result<Items<IrExpr>, AllocError>
    ensures { IfOk result (λ r. exprs_view r ≡ plain.fold_exprs (exprs_view parts)) }
{
    let mut parts = parts;
    let mut folded = Vec::with_capacity(alloc, parts.len())?;
    while let Some(last) = parts.pop() {
        folded.push(fold_expr(alloc, last)?)?;
    }
    folded.reverse();
    Ok(Items::from_vec(folded))
}
