//! Folding of statements: a constant test takes its branch, a loop on 0 goes, and so does what stands after a Return.
//!
//! Lists are folded from the last statement to the first. What is made stands turned round in one list, into which a branch that
//! is taken is folded at once. So a Return empties the list, since what is there stands after it.

ghost use Rattle.std.specs.Prelude.{◌≡◌, IfOk, OnOk, reverse};
ghost use Rattle.unit_ir.specs.ExprView.{expr_view};
ghost use Rattle.unit_ir.specs.StmtView.{stmt_view, stmts_view};
ghost use Rattle.unit_ir.specs.Stmts as shape;
ghost use Rattle.unit_opt.specs.Fold as plain;
ghost use Rattle.unit_opt.specs.Lists.{ahead};

use crate::fold::{fold_expr, number_of};
use sqlite_items::Items;
use std::alloc::{AllocError, Global};
use unit_ir::IrStmt;

/// The statements of a list.
pub(crate) fn fold_stmts(alloc: Global, list: Items<IrStmt>) -> Result<Items<IrStmt>, AllocError>
    ensures { IfOk result (λ r. stmts_view r ≡ plain.fold_stmts (stmts_view list)) }
{
    let mut folded = Vec::new(alloc);
    fold_ahead(alloc, list, &mut folded)?;
    Ok(turned(folded))
}

// Statements that stand turned round, in order.
fn turned(stmts: Vec<IrStmt>) -> Items<IrStmt>
    ensures { result ≡ reverse stmts.items }
{
    let mut stmts = stmts;
    stmts.reverse();
    Items::from_vec(stmts)
}

// The statements of a list, before those of `after`, which stand turned round.
#[cycle(fold)]
fn fold_ahead(alloc: Global, list: Items<IrStmt>, after: &mut Vec<IrStmt>) -> Result<(), AllocError>
    ensures { OnOk result (stmts_view (reverse after.new.items) ≡ ahead (plain.fold_each (stmts_view list)) (stmts_view (reverse after.old.items))) }
{
    let mut list = list;
    while let Some(last) = list.pop() {
        fold_stmt(alloc, last, after)?;
    }
    Ok(())
}

// What a statement becomes, before the statements of `after`, which stand turned round.
#[cycle(fold)]
fn fold_stmt(alloc: Global, stmt: IrStmt, after: &mut Vec<IrStmt>) -> Result<(), AllocError>
    ensures { OnOk result (stmts_view (reverse after.new.items) ≡ ahead (plain.fold_stmt (stmt_view stmt)) (stmts_view (reverse after.old.items))) }
{
    match stmt {
        IrStmt::Store(first, count, e) => {
            let e = fold_expr(alloc, e)?;
            put(IrStmt::store(first, count, e), after)
        }
        IrStmt::If(e, a, b) => {
            let e = fold_expr(alloc, e)?;
            match number_of(&e) {
                Some(0) => {
                    fold_ahead(alloc, b, after)?;
                    Ok(())
                }
                Some(_) => {
                    fold_ahead(alloc, a, after)?;
                    Ok(())
                }
                None => {
                    let mut then = Vec::new(alloc);
                    fold_ahead(alloc, a, &mut then)?;
                    let mut other = Vec::new(alloc);
                    fold_ahead(alloc, b, &mut other)?;
                    put(IrStmt::if_stmt(e, turned(then), turned(other)), after)
                }
            }
        }
        IrStmt::While(e, a) => {
            let e = fold_expr(alloc, e)?;
            if let Some(0) = number_of(&e) {
                return Ok(());
            }
            let mut body = Vec::new(alloc);
            fold_ahead(alloc, a, &mut body)?;
            put(IrStmt::while_stmt(e, turned(body)), after)
        }
        IrStmt::Return(e) => {
            let e = fold_expr(alloc, e)?;
            after.clear();
            put(IrStmt::return_stmt(e), after)
        }
        IrStmt::Print(e) => {
            let e = fold_expr(alloc, e)?;
            put(IrStmt::print_stmt(e), after)
        }
        IrStmt::Eval(e, count) => {
            let e = fold_expr(alloc, e)?;
            put(IrStmt::eval(e, count), after)
        }
    }
}

// One statement more, before those of `after`, which stand turned round.
fn put(stmt: IrStmt, after: &mut Vec<IrStmt>) -> Result<(), AllocError>
    ensures { OnOk result (stmts_view (reverse after.new.items) ≡ shape.stmts (stmt_view stmt) (stmts_view (reverse after.old.items))) }
{
    after.push(stmt)?;
    Ok(())
}
