//! How large a body is.
ghost use Rattle.std.specs.Prelude.{◌≡◌, ◌+◌, min};
ghost use Rattle.lar_typed.specs.Size.{expr_size, exprs_size, stmt_size, stmts_size};
ghost use Rattle.lar_typed.specs.ExprView.{expr_view, exprs_view};
ghost use Rattle.lar_typed.specs.StmtView.{stmt_view, stmts_view};

use lar_typed::{Node, TypedExpr, TypedStmt};

/// How many statements and expressions a body has, or the last value of a `u32` where there are more.
pub fn body_size(body: &[TypedStmt]) -> u32
    ensures { result ≡ min (stmts_size (stmts_view body.now)) 4294967295 }
{
    with_stmts(0, body)
}

#[cycle(stmts)]
fn with_stmts(before: u32, stmts: &[TypedStmt]) -> u32
    ensures { result ≡ min (before + stmts_size (stmts_view stmts.now)) 4294967295 }
{
    let mut total = before;
    for stmt in stmts {
        total = with_stmt(total, stmt);
    }
    total
}

#[cycle(stmts)]
fn with_stmt(total: u32, stmt: &TypedStmt) -> u32
    ensures { result ≡ min (total + stmt_size (stmt_view stmt.now)) 4294967295 }
{
    let total = total.saturating_add(1);
    match stmt {
        TypedStmt::Let(_, e) => with_expr(total, e),
        TypedStmt::Assign(_, _, e) => with_expr(total, e),
        TypedStmt::If(e, a, b) => {
            let total = with_expr(total, e);
            let total = with_stmts(total, a.as_slice());
            with_stmts(total, b.as_slice())
        }
        TypedStmt::While(e, a) => {
            let total = with_expr(total, e);
            with_stmts(total, a.as_slice())
        }
        TypedStmt::Return(None) => total,
        TypedStmt::Return(Some(e)) => with_expr(total, e),
        TypedStmt::Print(e) => with_expr(total, e),
        TypedStmt::StaticAssert(e, _) => with_expr(total, e),
        TypedStmt::Eval(e) => with_expr(total, e),
    }
}

#[cycle(exprs)]
fn with_exprs(before: u32, exprs: &[TypedExpr]) -> u32
    ensures { result ≡ min (before + exprs_size (exprs_view exprs.now)) 4294967295 }
{
    let mut total = before;
    for expr in exprs {
        total = with_expr(total, expr);
    }
    total
}

#[cycle(exprs)]
fn with_expr(total: u32, expr: &TypedExpr) -> u32
    ensures { result ≡ min (total + expr_size (expr_view expr.now)) 4294967295 }
{
    let total = total.saturating_add(1);
    match &expr.node {
        Node::Int(_) => total,
        Node::Bool(_) => total,
        Node::Local(_) => total,
        Node::Const(_) => total,
        Node::Generic(_) => total,
        Node::Tuple(parts) => with_exprs(total, parts.as_slice()),
        Node::New(fields) => with_exprs(total, fields.as_slice()),
        Node::Field(inner, _) => with_expr(total, inner.get()),
        Node::Unary(_, inner) => with_expr(total, inner.get()),
        Node::Binary(_, left, right) => {
            let total = with_expr(total, left.get());
            with_expr(total, right.get())
        }
        Node::Call(call) => with_exprs(total, call.get().args.as_slice()),
    }
}
