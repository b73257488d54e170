//! What becomes of statements. Each is gone through once; blocks by a loop. Calls nest as deep as blocks do.
ghost use Rattle.std.specs.Prelude.{◌≡◌, map, IfOk};
ghost use Rattle.lar_typed.specs.StmtView.{step_view, stmt_view, stmts_view};
ghost use Rattle.unit_input.specs.InputView as unit;
ghost use Rattle.unit_input.specs.Widths.{cut};
ghost use Rattle.unit_close.specs.Sight.{sight, IsAround};
ghost use Rattle.unit_close.specs.Made.{along};
ghost use Rattle.unit_close.specs.Ready.{StepsReady, StmtReady, StmtsReady};
ghost use Rattle.unit_close.specs.States.{IsMadeStmt, AreMadeStmts};

use crate::around::Around;
use crate::exprs::close_expr;
use lar_typed::{Step, TypedStmt};
use sqlite_items::Items;
use std::alloc::{AllocError, Global};
use unit_input::{UnitExpr, UnitStmt};

/// How many words stand before the place that steps lead to, from a value with the type of a row; 256 stands for all above 255.
fn words_along(
    alloc: Global,
    around: &Around,
    row: usize,
    steps: &[Step],
) -> Result<u16, AllocError>
    requires around { IsAround around.now }
    requires ready { StepsReady (sight around.now) row (map step_view steps.now) }
    ensures { IfOk result (λ w. w ≡ cut (along (sight around.now) row (map step_view steps.now))) }
{
    let mut row = row;
    let mut total = 0u16;
    for step in steps {
        let before = around.measure.until(alloc, around.widths, row, step.part)?;
        total = total.saturating_add(before);
        row = step.of;
    }
    Ok(total.min(256))
}

/// What becomes of a statement. `next` is how many calls of the body came before it.
#[cycle(stmts)]
fn close_stmt(
    stmt: &TypedStmt,
    alloc: Global,
    around: &Around,
    next: &mut usize,
) -> Result<UnitStmt, AllocError>
    requires around { IsAround around.now }
    requires ready { StmtReady (sight around.now) next.old (stmt_view stmt.now) }
    ensures { IfOk result (λ r. IsMadeStmt (sight around.now) next.old (stmt_view stmt.now) next.new (unit.stmt_view r)) }
{
    match stmt {
        TypedStmt::Let(number, value) => {
            let value = close_expr(value, alloc, around, next)?;
            Ok(UnitStmt::let_stmt(*number as u32, value))
        }
        TypedStmt::Assign(number, steps, value) => {
            let row = around.locals[*number];
            let offset = words_along(alloc, around, row, steps.as_slice())?;
            let width = around.measure.width(around.widths, value.of);
            let value = close_expr(value, alloc, around, next)?;
            Ok(UnitStmt::assign(*number as u32, offset, width, value))
        }
        TypedStmt::If(test, then, other) => {
            let test = close_expr(test, alloc, around, next)?;
            let then = close_stmts(then.as_slice(), alloc, around, next)?;
            let other = close_stmts(other.as_slice(), alloc, around, next)?;
            Ok(UnitStmt::if_stmt(test, then, other))
        }
        TypedStmt::While(test, body) => {
            let test = close_expr(test, alloc, around, next)?;
            let body = close_stmts(body.as_slice(), alloc, around, next)?;
            Ok(UnitStmt::while_stmt(test, body))
        }
        TypedStmt::Return(None) => { Ok(UnitStmt::return_stmt(UnitExpr::tuple(Items::new(alloc)))) }
        TypedStmt::Return(Some(value)) => {
            let value = close_expr(value, alloc, around, next)?;
            Ok(UnitStmt::return_stmt(value))
        }
        TypedStmt::Print(value) => {
            Ok(UnitStmt::print_stmt(close_expr(value, alloc, around, next)?))
        }
        TypedStmt::StaticAssert(test, _) => {
            Ok(UnitStmt::assert_stmt(close_expr(test, alloc, around, next)?))
        }
        TypedStmt::Eval(value) => { Ok(UnitStmt::eval(close_expr(value, alloc, around, next)?)) }
    }
}

/// What becomes of the statements of a block.
#[cycle(stmts)]
pub(crate) fn close_stmts(
    stmts: &[TypedStmt],
    alloc: Global,
    around: &Around,
    next: &mut usize,
) -> Result<Items<UnitStmt>, AllocError>
    requires around { IsAround around.now }
    requires ready { StmtsReady (sight around.now) next.old (stmts_view stmts.now) }
    ensures { IfOk result (λ rs. AreMadeStmts (sight around.now) next.old (stmts_view stmts.now) next.new (unit.stmts_view rs)) }
{
    let mut made = Items::new(alloc);
    for stmt in stmts {
        made.push(close_stmt(stmt, alloc, around, next)?)?;
    }
    Ok(made)
}
