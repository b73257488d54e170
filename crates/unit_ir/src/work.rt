//! How much work a unit is likely to make.

ghost use Rattle.std.specs.Prelude.{◌≡◌, ◌+◌, min};
ghost use Rattle.unit_ir.specs.Cost.{expr_cost, exprs_cost, stmt_cost, stmts_cost, functions_cost, unit_cost};
ghost use Rattle.unit_ir.specs.ExprView.{expr_view, exprs_view};
ghost use Rattle.unit_ir.specs.StmtView.{stmt_view, stmts_view};
ghost use Rattle.unit_ir.specs.Units.{unit_view};

use crate::{IrExpr, IrStmt, IrUnit};

/// How many statements and expressions a unit has, or the last value of a `u32` where there are more.
pub fn cost(unit: &IrUnit) -> u32
    ensures { result ≡ min (unit_cost (unit_view unit.now)) 4294967295 }
{
    let mut total = 0;
    for function in unit.functions() {
        total = with_stmts(total, function.body.as_slice());
    }
    total
}

#[cycle(stmts)]
fn with_stmts(before: u32, stmts: &[IrStmt]) -> u32
    ensures { result ≡ min (before + stmts_cost (stmts_view stmts.now)) 4294967295 }
{
    let mut total = before;
    for stmt in stmts {
        total = with_stmt(total, stmt);
    }
    total
}

#[cycle(stmts)]
fn with_stmt(total: u32, stmt: &IrStmt) -> u32
    ensures { result ≡ min (total + stmt_cost (stmt_view stmt.now)) 4294967295 }
{
    let total = total.saturating_add(1);
    match stmt {
        IrStmt::Store(_, _, e) => with_expr(total, e),
        IrStmt::If(e, a, b) => {
            let total = with_expr(total, e);
            let total = with_stmts(total, a.as_slice());
            with_stmts(total, b.as_slice())
        }
        IrStmt::While(e, a) => {
            let total = with_expr(total, e);
            with_stmts(total, a.as_slice())
        }
        IrStmt::Return(e) => with_expr(total, e),
        IrStmt::Print(e) => with_expr(total, e),
        IrStmt::Eval(e, _) => with_expr(total, e),
    }
}

#[cycle(exprs)]
fn with_exprs(before: u32, exprs: &[IrExpr]) -> u32
    ensures { result ≡ min (before + exprs_cost (exprs_view exprs.now)) 4294967295 }
{
    let mut total = before;
    for expr in exprs {
        total = with_expr(total, expr);
    }
    total
}

#[cycle(exprs)]
fn with_expr(total: u32, expr: &IrExpr) -> u32
    ensures { result ≡ min (total + expr_cost (expr_view expr.now)) 4294967295 }
{
    let total = total.saturating_add(1);
    match expr {
        IrExpr::Const(_) => total,
        IrExpr::Load(_) => total,
        IrExpr::Op1(_, a) => with_expr(total, a.get()),
        IrExpr::Op2(_, a, b) => {
            let total = with_expr(total, a.get());
            with_expr(total, b.get())
        }
        IrExpr::And(a, b) => {
            let total = with_expr(total, a.get());
            with_expr(total, b.get())
        }
        IrExpr::Or(a, b) => {
            let total = with_expr(total, a.get());
            with_expr(total, b.get())
        }
        IrExpr::Call(_, args) => with_exprs(total, args.as_slice()),
        IrExpr::Seq(parts) => with_exprs(total, parts.as_slice()),
        IrExpr::Bind(_, _, a, b) => {
            let total = with_expr(total, a.get());
            with_expr(total, b.get())
        }
    }
}
