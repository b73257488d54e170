//! The statements of a body, from the last to the first: what stays stands turned round until a list is done.

ghost use Rattle.std.specs.Prelude.{◌≡◌, IfOk, OnOk, reverse};
ghost use Rattle.unit_ir.specs.ExprView.{expr_view};
ghost use Rattle.unit_ir.specs.StmtView.{stmt_view, stmts_view};
ghost use Rattle.unit_ir.specs.Stmts as shape;
ghost use Rattle.opt_slots.specs.Slots.{slots_of};
ghost use Rattle.opt_dead.specs.Dead as plain;

use crate::quiet::is_quiet;
use opt_slots::SlotSet;
use sqlite_items::Items;
use std::alloc::{AllocError, Global};
use unit_ir::{IrExpr, IrStmt};

/// The statements of a list that stay, where the function loads these slots.
#[cycle(dead)]
pub(crate) fn dead_stmts(
    alloc: Global,
    list: Items<IrStmt>,
    loaded: &SlotSet,
) -> Result<Items<IrStmt>, AllocError>
    ensures { IfOk result (λ r. stmts_view r ≡ plain.dead_stmts (slots_of loaded.now) (stmts_view list)) }
{
    let mut list = list;
    let mut kept = Vec::with_capacity(alloc, list.len())?;
    while let Some(last) = list.pop() {
        dead_stmt(alloc, last, loaded, &mut kept)?;
    }
    kept.reverse();
    Ok(Items::from_vec(kept))
}

// A statement, if it stays, before those of `after`, which stand turned round.
#[cycle(dead)]
fn dead_stmt(
    alloc: Global,
    stmt: IrStmt,
    loaded: &SlotSet,
    after: &mut Vec<IrStmt>,
) -> Result<(), AllocError>
    ensures { OnOk result (stmts_view (reverse after.new.items) ≡ plain.before (plain.dead_stmt (slots_of loaded.now) (stmt_view stmt)) (stmts_view (reverse after.old.items))) }
{
    match stmt {
        IrStmt::Store(first, count, e) => stored(first, count, e, loaded, after),
        IrStmt::If(e, a, b) => {
            let then = dead_stmts(alloc, a, loaded)?;
            let other = dead_stmts(alloc, b, loaded)?;
            put(IrStmt::if_stmt(e, then, other), after)
        }
        IrStmt::While(e, a) => {
            let body = dead_stmts(alloc, a, loaded)?;
            put(IrStmt::while_stmt(e, body), after)
        }
        IrStmt::Return(e) => put(IrStmt::return_stmt(e), after),
        IrStmt::Print(e) => put(IrStmt::print_stmt(e), after),
        IrStmt::Eval(e, count) => dropped(e, count, after),
    }
}

// A Store stays where one of its slots is loaded.
fn stored(
    first: u8,
    count: u8,
    e: IrExpr,
    loaded: &SlotSet,
    after: &mut Vec<IrStmt>,
) -> Result<(), AllocError>
    ensures { OnOk result (stmts_view (reverse after.new.items) ≡ plain.before (plain.stored (slots_of loaded.now) first count (expr_view e)) (stmts_view (reverse after.old.items))) }
{
    if loaded.has_any(first, count) {
        return put(IrStmt::store(first, count, e), after);
    }
    dropped(e, count, after)
}

// Words that are dropped are computed only where something is seen of it.
fn dropped(e: IrExpr, count: u8, after: &mut Vec<IrStmt>) -> Result<(), AllocError>
    ensures { OnOk result (stmts_view (reverse after.new.items) ≡ plain.before (plain.dropped (expr_view e) count) (stmts_view (reverse after.old.items))) }
{
    if is_quiet(&e) {
        return Ok(());
    }
    put(IrStmt::eval(e, count), after)
}

// One statement more, before those of `after`, which stand turned round.
fn put(stmt: IrStmt, after: &mut Vec<IrStmt>) -> Result<(), AllocError>
    ensures { OnOk result (stmts_view (reverse after.new.items) ≡ shape.stmts (stmt_view stmt) (stmts_view (reverse after.old.items))) }
{
    after.push(stmt)?;
    Ok(())
}
