//! The calls of a body.
ghost use Rattle.std.specs.Prelude.{◌≡◌, ◌++◌, map, OnOk, IfOk};
ghost use Rattle.lar_typed.specs.Calls.{expr_calls, exprs_calls, stmt_calls, stmts_calls};
ghost use Rattle.lar_typed.specs.ExprView.{expr_view, exprs_view};
ghost use Rattle.lar_typed.specs.StmtView.{stmt_view, stmts_view};
ghost use Rattle.mono_bodies.specs.Patterns.{call_view};

use lar_source::Span;
use lar_typed::{Node, TypedExpr, TypedStmt};
use std::alloc::{AllocError, Global};

/// A call as it is written: its arguments may name the generics of the function that it stands in.
#[derive(Clone, Copy, Debug, PartialEq, Eq)]
pub struct PatternCall {
    /// The function that is called, by its place among all functions.
    pub callee: usize,
    /// The list of the arguments for its generics, as the number of a row.
    pub generics: usize,
    /// Where the callee's path stands.
    pub at: Span,
}

/// The calls of a body, in reading order.
pub fn body_calls(alloc: Global, body: &[TypedStmt]) -> Result<Vec<PatternCall>, AllocError>
    ensures { IfOk result (λ calls. map call_view calls.items ≡ stmts_calls (stmts_view body.now)) }
{
    let mut calls = Vec::new(alloc);
    take_stmts(body, &mut calls)?;
    Ok(calls)
}

#[cycle(stmts)]
fn take_stmts(stmts: &[TypedStmt], calls: &mut Vec<PatternCall>) -> Result<(), AllocError>
    ensures { OnOk result (map call_view calls.new.items ≡ map call_view calls.old.items ++ stmts_calls (stmts_view stmts.now)) }
{
    for stmt in stmts {
        take_stmt(stmt, calls)?;
    }
    Ok(())
}

#[cycle(stmts)]
fn take_stmt(stmt: &TypedStmt, calls: &mut Vec<PatternCall>) -> Result<(), AllocError>
    ensures { OnOk result (map call_view calls.new.items ≡ map call_view calls.old.items ++ stmt_calls (stmt_view stmt.now)) }
{
    match stmt {
        TypedStmt::Let(_, e) => take_expr(e, calls),
        TypedStmt::Assign(_, _, e) => take_expr(e, calls),
        TypedStmt::If(e, a, b) => {
            take_expr(e, calls)?;
            take_stmts(a.as_slice(), calls)?;
            take_stmts(b.as_slice(), calls)
        }
        TypedStmt::While(e, a) => {
            take_expr(e, calls)?;
            take_stmts(a.as_slice(), calls)
        }
        TypedStmt::Return(None) => Ok(()),
        TypedStmt::Return(Some(e)) => take_expr(e, calls),
        TypedStmt::Print(e) => take_expr(e, calls),
        TypedStmt::StaticAssert(e, _) => take_expr(e, calls),
        TypedStmt::Eval(e) => take_expr(e, calls),
    }
}

#[cycle(exprs)]
fn take_exprs(exprs: &[TypedExpr], calls: &mut Vec<PatternCall>) -> Result<(), AllocError>
    ensures { OnOk result (map call_view calls.new.items ≡ map call_view calls.old.items ++ exprs_calls (exprs_view exprs.now)) }
{
    for expr in exprs {
        take_expr(expr, calls)?;
    }
    Ok(())
}

#[cycle(exprs)]
fn take_expr(expr: &TypedExpr, calls: &mut Vec<PatternCall>) -> Result<(), AllocError>
    ensures { OnOk result (map call_view calls.new.items ≡ map call_view calls.old.items ++ expr_calls (expr_view expr.now)) }
{
    match &expr.node {
        Node::Int(_) => Ok(()),
        Node::Bool(_) => Ok(()),
        Node::Local(_) => Ok(()),
        Node::Const(_) => Ok(()),
        Node::Generic(_) => Ok(()),
        Node::Tuple(parts) => take_exprs(parts.as_slice(), calls),
        Node::New(fields) => take_exprs(fields.as_slice(), calls),
        Node::Field(inner, _) => take_expr(inner.get(), calls),
        Node::Unary(_, inner) => take_expr(inner.get(), calls),
        Node::Binary(_, left, right) => {
            take_expr(left.get(), calls)?;
            take_expr(right.get(), calls)
        }
        Node::Call(call) => {
            let call = call.get();
            let pattern = PatternCall {
                callee: call.callee,
                generics: call.generics,
                at: call.at,
            };
            calls.push(pattern)?;
            take_exprs(call.args.as_slice(), calls)
        }
    }
}
