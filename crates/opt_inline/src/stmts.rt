//! Statements whose calls of small functions are replaced, in the order in which calls are done.

ghost use Rattle.std.specs.Prelude.{◌≡◌, IfOk, OnOk};
ghost use Rattle.unit_ir.specs.StmtView.{stmt_view, stmts_view};
ghost use Rattle.opt_inline.specs.Inline as plain;
ghost use Rattle.opt_inline.specs.Places.{SmallsInRange};
ghost use Rattle.opt_inline.specs.SmallView.{smalls_view};

use crate::exprs::inlined_expr;
use crate::small::Small;
use opt_slots::last_first;
use sqlite_items::Items;
use std::alloc::{AllocError, Global};
use unit_ir::IrStmt;

/// The statements of a list, from the first on, of a function that has so many slots so far, and the slots behind them.
#[cycle(inlined)]
pub(crate) fn inlined_stmts(
    alloc: Global,
    list: Items<IrStmt>,
    slots: &mut u8,
    small: &[Option<Small>],
) -> Result<Items<IrStmt>, AllocError>
    requires { SmallsInRange (smalls_view small.now) }
    ensures list { IfOk result (λ r. stmts_view r ≡ plain.inlined_stmts (smalls_view small.now) slots.old (stmts_view list)) }
    ensures slots { OnOk result (slots.new ≡ plain.stmts_slots (smalls_view small.now) slots.old (stmts_view list)) }
{
    let mut rest = last_first(alloc, list)?;
    let mut done = Vec::with_capacity(alloc, rest.len())?;
    while let Some(stmt) = rest.pop() {
        done.push(inlined_stmt(alloc, stmt, slots, small)?)?;
    }
    Ok(Items::from_vec(done))
}

#[cycle(inlined)]
fn inlined_stmt(
    alloc: Global,
    stmt: IrStmt,
    slots: &mut u8,
    small: &[Option<Small>],
) -> Result<IrStmt, AllocError>
    requires { SmallsInRange (smalls_view small.now) }
    ensures stmt { IfOk result (λ r. stmt_view r ≡ plain.inlined_stmt (smalls_view small.now) slots.old (stmt_view stmt)) }
    ensures slots { OnOk result (slots.new ≡ plain.stmt_slots (smalls_view small.now) slots.old (stmt_view stmt)) }
{
    match stmt {
        IrStmt::Store(first, count, e) => {
            let e = inlined_expr(alloc, e, slots, small)?;
            Ok(IrStmt::store(first, count, e))
        }
        IrStmt::If(e, a, b) => {
            let e = inlined_expr(alloc, e, slots, small)?;
            let then = inlined_stmts(alloc, a, slots, small)?;
            let other = inlined_stmts(alloc, b, slots, small)?;
            Ok(IrStmt::if_stmt(e, then, other))
        }
        IrStmt::While(e, a) => {
            let e = inlined_expr(alloc, e, slots, small)?;
            let body = inlined_stmts(alloc, a, slots, small)?;
            Ok(IrStmt::while_stmt(e, body))
        }
        IrStmt::Return(e) => {
            let e = inlined_expr(alloc, e, slots, small)?;
            Ok(IrStmt::return_stmt(e))
        }
        IrStmt::Print(e) => {
            let e = inlined_expr(alloc, e, slots, small)?;
            Ok(IrStmt::print_stmt(e))
        }
        IrStmt::Eval(e, count) => {
            let e = inlined_expr(alloc, e, slots, small)?;
            Ok(IrStmt::eval(e, count))
        }
    }
}
