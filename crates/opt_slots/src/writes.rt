//! The slots into which trees put words.

ghost use Rattle.std.specs.Prelude.{◌≡◌};
ghost use Rattle.unit_ir.specs.ExprView.{expr_view, exprs_view};
ghost use Rattle.unit_ir.specs.StmtView.{stmt_view, stmts_view};
ghost use Rattle.opt_slots.specs.Slots.{slots_of, also};
ghost use Rattle.opt_slots.specs.Writes.{expr_writes, exprs_writes, stmt_writes, stmts_writes};

use crate::SlotSet;
use unit_ir::{IrExpr, IrStmt};

/// Adds the slots into which statements put words.
#[cycle(stmts)]
pub fn note_writes(stmts: &[IrStmt], written: &mut SlotSet)
    ensures { slots_of written.new ≡ also (slots_of written.old) (stmts_writes (stmts_view stmts.now)) }
{
    for stmt in stmts {
        note_stmt(stmt, written);
    }
}

#[cycle(stmts)]
fn note_stmt(stmt: &IrStmt, written: &mut SlotSet)
    ensures { slots_of written.new ≡ also (slots_of written.old) (stmt_writes (stmt_view stmt.now)) }
{
    match stmt {
        IrStmt::Store(first, count, e) => {
            note_expr_writes(e, written);
            written.insert_span(*first, *count);
        }
        IrStmt::If(e, a, b) => {
            note_expr_writes(e, written);
            note_writes(a.as_slice(), written);
            note_writes(b.as_slice(), written);
        }
        IrStmt::While(e, a) => {
            note_expr_writes(e, written);
            note_writes(a.as_slice(), written);
        }
        IrStmt::Return(e) => note_expr_writes(e, written),
        IrStmt::Print(e) => note_expr_writes(e, written),
        IrStmt::Eval(e, _) => note_expr_writes(e, written),
    }
}

#[cycle(exprs)]
fn note_exprs_writes(exprs: &[IrExpr], written: &mut SlotSet)
    ensures { slots_of written.new ≡ also (slots_of written.old) (exprs_writes (exprs_view exprs.now)) }
{
    for expr in exprs {
        note_expr_writes(expr, written);
    }
}

/// Adds the slots into which an expression puts words.
#[cycle(exprs)]
pub fn note_expr_writes(expr: &IrExpr, written: &mut SlotSet)
    ensures { slots_of written.new ≡ also (slots_of written.old) (expr_writes (expr_view expr.now)) }
{
    match expr {
        IrExpr::Const(_) => {}
        IrExpr::Load(_) => {}
        IrExpr::Op1(_, a) => note_expr_writes(a.get(), written),
        IrExpr::Op2(_, a, b) => {
            note_expr_writes(a.get(), written);
            note_expr_writes(b.get(), written);
        }
        IrExpr::And(a, b) => {
            note_expr_writes(a.get(), written);
            note_expr_writes(b.get(), written);
        }
        IrExpr::Or(a, b) => {
            note_expr_writes(a.get(), written);
            note_expr_writes(b.get(), written);
        }
        IrExpr::Call(_, args) => note_exprs_writes(args.as_slice(), written),
        IrExpr::Seq(parts) => note_exprs_writes(parts.as_slice(), written),
        IrExpr::Bind(first, count, a, b) => {
            note_expr_writes(a.get(), written);
            written.insert_span(*first, *count);
            note_expr_writes(b.get(), written);
        }
    }
}
