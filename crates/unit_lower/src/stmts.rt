//! What statements become. An assertion is left out, since it was looked at before.

ghost use Rattle.std.specs.Prelude.{◌≡◌, ◌≤◌, true, false, Err, IfOk, OnOk};
ghost use Rattle.unit_input.specs.InputView as input;
ghost use Rattle.unit_input.specs.Rules.{is_stmt, are_stmts};
ghost use Rattle.unit_ir.specs.StmtView.{stmts_view};
ghost use Rattle.unit_lower.specs.Lowering as plain;
ghost use Rattle.unit_lower.specs.Slots.{local_slots};
ghost use Rattle.unit_lower.specs.Wide.{is_wide_stmt, are_wide_stmts};
ghost use Rattle.unit_lower.specs.StmtResult.{stmt_if, with_one, is_over_stmt, are_over_stmts};
ghost use Rattle.unit_lower.specs.declared.stop.Stop.TheVariants.{TooWide};

use crate::exprs::lowered;
use crate::scope::Scope;
use crate::stop::Stop;
use sqlite_items::Items;
use std::alloc::{AllocError, Global};
use unit_input::UnitStmt;
use unit_ir::IrStmt;

// Puts a statement at the end, if it is not left out.
fn put(stmt: Option<IrStmt>, made: &mut Items<IrStmt>) -> Result<(), AllocError>
    ensures { OnOk result (made.new ≡ with_one made.old stmt) }
{
    match stmt {
        Some(stmt) => made.push(stmt),
        None => Ok(()),
    }
}

/// What the statements of a block become, or that something is too wide. `next` is the next fresh slot.
#[cycle(stmts)]
#[tactic(auto, using(crate::proofs::StmtLists::from_start, crate::proofs::StmtLists::rules_here, crate::proofs::StmtLists::more_here, crate::proofs::StmtLists::over_here, crate::proofs::StmtLists::at_end))]
pub(crate) fn lowered_stmts(
    stmts: &[UnitStmt],
    alloc: Global,
    scope: &Scope,
    next: &mut u8,
) -> Result<Items<IrStmt>, Stop>
    requires rules { are_stmts scope.now (input.stmts_view stmts.now) ≡ true }
    requires above { local_slots scope.now ≤ next.old }
    ensures made { IfOk result (λ r. stmts_view r ≡ (plain.lower_stmts scope.now (input.stmts_view stmts.now) next.old).made) }
    ensures narrow { OnOk result (are_wide_stmts scope.now (input.stmts_view stmts.now) ≡ false) }
    ensures next { OnOk result (next.new ≡ (plain.lower_stmts scope.now (input.stmts_view stmts.now) next.old).next) }
    ensures wide { result ≡ Err TooWide → are_over_stmts scope.now (input.stmts_view stmts.now) next.old ≡ true }
{
    let mut made = Items::new(alloc);
    for stmt in stmts {
        let stmt = lowered_stmt(stmt, alloc, scope, next)?;
        put(stmt, &mut made)?;
    }
    Ok(made)
}

// What one statement becomes, if it is not left out.
#[cycle(stmts)]
#[tactic(auto, using(crate::proofs::Over::above_after, crate::proofs::StmtLists::let_local, crate::proofs::StmtLists::let_expr, crate::proofs::StmtLists::assign_local, crate::proofs::StmtLists::assign_expr, crate::proofs::StmtLists::assign_part, crate::proofs::StmtLists::fork_test, crate::proofs::StmtLists::fork_then, crate::proofs::StmtLists::fork_other, crate::proofs::StmtLists::loop_test, crate::proofs::StmtLists::loop_body, crate::proofs::StmtLists::give_expr, crate::proofs::StmtLists::print_expr, crate::proofs::StmtLists::assert_narrow, crate::proofs::StmtLists::fork_over_test, crate::proofs::StmtLists::fork_over_then, crate::proofs::StmtLists::fork_over_other, crate::proofs::StmtLists::loop_over_test, crate::proofs::StmtLists::loop_over_body, crate::proofs::StmtLists::above_block))]
fn lowered_stmt(
    stmt: &UnitStmt,
    alloc: Global,
    scope: &Scope,
    next: &mut u8,
) -> Result<Option<IrStmt>, Stop>
    requires rules { is_stmt scope.now (input.stmt_view stmt.now) ≡ true }
    requires above { local_slots scope.now ≤ next.old }
    ensures made { IfOk result (λ r. stmt_if r ≡ (plain.lower_stmt scope.now (input.stmt_view stmt.now) next.old).made) }
    ensures narrow { OnOk result (is_wide_stmt scope.now (input.stmt_view stmt.now) ≡ false) }
    ensures next { OnOk result (next.new ≡ (plain.lower_stmt scope.now (input.stmt_view stmt.now) next.old).next) }
    ensures wide { result ≡ Err TooWide → is_over_stmt scope.now (input.stmt_view stmt.now) next.old ≡ true }
{
    match stmt {
        UnitStmt::Let(number, e) => {
            let (e, _) = lowered(e, alloc, scope, next)?;
            let slots = scope.local(*number);
            Ok(Some(IrStmt::store(slots.first, slots.count, e)))
        }
        UnitStmt::Assign(number, offset, width, e) => {
            let (e, _) = lowered(e, alloc, scope, next)?;
            let slots = scope.local(*number);
            Ok(Some(IrStmt::store(slots.first + *offset as u8, *width as u8, e)))
        }
        UnitStmt::If(test, then, other) => {
            let (test, _) = lowered(test, alloc, scope, next)?;
            let then = lowered_stmts(then.as_slice(), alloc, scope, next)?;
            let other = lowered_stmts(other.as_slice(), alloc, scope, next)?;
            Ok(Some(IrStmt::if_stmt(test, then, other)))
        }
        UnitStmt::While(test, body) => {
            let (test, _) = lowered(test, alloc, scope, next)?;
            let body = lowered_stmts(body.as_slice(), alloc, scope, next)?;
            Ok(Some(IrStmt::while_stmt(test, body)))
        }
        UnitStmt::Return(e) => {
            let (e, _) = lowered(e, alloc, scope, next)?;
            Ok(Some(IrStmt::return_stmt(e)))
        }
        UnitStmt::Print(e) => {
            let (e, _) = lowered(e, alloc, scope, next)?;
            Ok(Some(IrStmt::print_stmt(e)))
        }
        UnitStmt::Assert(_) => Ok(None),
        UnitStmt::Eval(e) => {
            let (e, width) = lowered(e, alloc, scope, next)?;
            Ok(Some(IrStmt::eval(e, width)))
        }
    }
}
