//! The slots that trees load.

ghost use Rattle.std.specs.Prelude.{◌≡◌};
ghost use Rattle.unit_ir.specs.ExprView.{expr_view, exprs_view};
ghost use Rattle.unit_ir.specs.StmtView.{stmt_view, stmts_view};
ghost use Rattle.opt_slots.specs.Loads.{expr_loads, exprs_loads, stmt_loads, stmts_loads};
ghost use Rattle.opt_slots.specs.Slots.{slots_of, also};

use crate::SlotSet;
use unit_ir::{IrExpr, IrStmt};

/// Adds the slots that statements load.
#[cycle(stmts)]
pub fn note_loads(stmts: &[IrStmt], loaded: &mut SlotSet)
    ensures { slots_of loaded.new ≡ also (slots_of loaded.old) (stmts_loads (stmts_view stmts.now)) }
{
    for stmt in stmts {
        note_stmt(stmt, loaded);
    }
}

#[cycle(stmts)]
fn note_stmt(stmt: &IrStmt, loaded: &mut SlotSet)
    ensures { slots_of loaded.new ≡ also (slots_of loaded.old) (stmt_loads (stmt_view stmt.now)) }
{
    match stmt {
        IrStmt::Store(_, _, e) => note_expr(e, loaded),
        IrStmt::If(e, a, b) => {
            note_expr(e, loaded);
            note_loads(a.as_slice(), loaded);
            note_loads(b.as_slice(), loaded);
        }
        IrStmt::While(e, a) => {
            note_expr(e, loaded);
            note_loads(a.as_slice(), loaded);
        }
        IrStmt::Return(e) => note_expr(e, loaded),
        IrStmt::Print(e) => note_expr(e, loaded),
        IrStmt::Eval(e, _) => note_expr(e, loaded),
    }
}

#[cycle(exprs)]
fn note_exprs(exprs: &[IrExpr], loaded: &mut SlotSet)
    ensures { slots_of loaded.new ≡ also (slots_of loaded.old) (exprs_loads (exprs_view exprs.now)) }
{
    for expr in exprs {
        note_expr(expr, loaded);
    }
}

#[cycle(exprs)]
fn note_expr(expr: &IrExpr, loaded: &mut SlotSet)
    ensures { slots_of loaded.new ≡ also (slots_of loaded.old) (expr_loads (expr_view expr.now)) }
{
    match expr {
        IrExpr::Const(_) => {}
        IrExpr::Load(slot) => loaded.insert(*slot),
        IrExpr::Op1(_, a) => note_expr(a.get(), loaded),
        IrExpr::Op2(_, a, b) => {
            note_expr(a.get(), loaded);
            note_expr(b.get(), loaded);
        }
        IrExpr::And(a, b) => {
            note_expr(a.get(), loaded);
            note_expr(b.get(), loaded);
        }
        IrExpr::Or(a, b) => {
            note_expr(a.get(), loaded);
            note_expr(b.get(), loaded);
        }
        IrExpr::Call(_, args) => note_exprs(args.as_slice(), loaded),
        IrExpr::Seq(parts) => note_exprs(parts.as_slice(), loaded),
        IrExpr::Bind(_, _, a, b) => {
            note_expr(a.get(), loaded);
            note_expr(b.get(), loaded);
        }
    }
}
