//! Small functions: those that can stand in the place of their calls.

ghost use Rattle.std.specs.Prelude.{◌≡◌, ◌&&◌, not, IfOk, MatchOption, Some, None, map};
ghost use Rattle.std.specs.Option.{option_map};
ghost use Rattle.unit_ir.specs.ExprView.{expr_view, exprs_view};
ghost use Rattle.unit_ir.specs.StmtView.{stmts_view};
ghost use Rattle.unit_ir.specs.Units.{fn_view};
ghost use Rattle.opt_inline.specs.Inline as plain;
ghost use Rattle.opt_inline.specs.SmallView.{small_view, smalls_view};

use crate::copy::copied;
use std::alloc::{AllocError, Global};
use unit_ir::{IrExpr, IrFn, IrStmt};

/// What is needed of a small function: how many words it takes and keeps in slots, and what it gives.
#[derive(Drop)]
pub(crate) struct Small {
    pub params: u8,
    pub slots: u8,
    pub gives: IrExpr,
}

/// Whether an expression has no call.
#[cycle(calls)]
pub(crate) fn calls_nothing(e: &IrExpr) -> bool
    ensures { result ≡ plain.calls_nothing (expr_view e.now) }
{
    match e {
        IrExpr::Const(_) => true,
        IrExpr::Load(_) => true,
        IrExpr::Op1(_, a) => calls_nothing(a.get()),
        IrExpr::Op2(_, a, b) => calls_nothing(a.get()) && calls_nothing(b.get()),
        IrExpr::And(a, b) => calls_nothing(a.get()) && calls_nothing(b.get()),
        IrExpr::Or(a, b) => calls_nothing(a.get()) && calls_nothing(b.get()),
        IrExpr::Call(_, _) => false,
        IrExpr::Seq(parts) => call_nothing(parts.as_slice()),
        IrExpr::Bind(_, _, a, b) => calls_nothing(a.get()) && calls_nothing(b.get()),
    }
}

#[cycle(calls)]
fn call_nothing(parts: &[IrExpr]) -> bool
    ensures { result ≡ plain.call_nothing (exprs_view parts.now) }
{
    for part in parts {
        if !calls_nothing(part) {
            return false;
        }
    }
    true
}

// The one expression that a body gives, if it does nothing else.
fn given(body: &[IrStmt]) -> Option<&IrExpr>
    ensures { MatchOption result (plain.given (stmts_view body.now) ≡ None) (λ e. plain.given (stmts_view body.now) ≡ Some (expr_view e.now)) }
{
    if body.len() != 1 {
        return None;
    }
    match &body[0] {
        IrStmt::Return(e) => Some(e),
        IrStmt::Store(_, _, _) => None,
        IrStmt::If(_, _, _) => None,
        IrStmt::While(_, _) => None,
        IrStmt::Print(_) => None,
        IrStmt::Eval(_, _) => None,
    }
}

// What is needed of a function that gives one expression, if it is internal and calls nothing.
fn small_if(alloc: Global, f: &IrFn, e: &IrExpr) -> Result<Option<Small>, AllocError>
    ensures { IfOk result (λ r. option_map small_view r ≡ plain.small_if (fn_view f.now) (not f.now.external && plain.calls_nothing (expr_view e.now)) (expr_view e.now)) }
{
    if f.external {
        return Ok(None);
    }
    if !calls_nothing(e) {
        return Ok(None);
    }
    let gives = copied(alloc, e)?;
    Ok(Some(Small {
        params: f.params,
        slots: f.slots,
        gives,
    }))
}

fn small_of(alloc: Global, f: &IrFn) -> Result<Option<Small>, AllocError>
    ensures { IfOk result (λ r. option_map small_view r ≡ plain.small (fn_view f.now)) }
{
    match given(f.body.as_slice()) {
        None => Ok(None),
        Some(e) => Ok(small_if(alloc, f, e)?),
    }
}

/// Of each function, what is needed of it where it is small.
pub(crate) fn smalls(alloc: Global, functions: &[IrFn]) -> Result<Vec<Option<Small>>, AllocError>
    ensures { IfOk result (λ r. smalls_view r.items ≡ map plain.small (map fn_view functions.now)) }
{
    let mut found = Vec::with_capacity(alloc, functions.len())?;
    for f in functions {
        found.push(small_of(alloc, f)?)?;
    }
    Ok(found)
}
