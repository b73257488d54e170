//! Statements.
ghost use Rattle.std.specs.Prelude.{◌≡◌, ◌++◌, ◌∷◌, [], OnOk};
ghost use Rattle.unit_input.specs.InputView.{expr_view, stmt_view, stmts_view};
ghost use Rattle.unit_input.specs.Spelling.{two, four, spell_expr, spell_stmt, spell_stmts, spell_block};

use super::exprs::{expr_len, put_byte, put_expr, put_four, put_long_count, put_two};
use crate::{UnitExpr, UnitStmt};
use std::alloc::AllocError;

// How long the text of a statement is.
#[cycle(length)]
fn stmt_len(stmt: &UnitStmt) -> usize {
    match stmt {
        UnitStmt::Let(_, value) => expr_len(value).saturating_add(5),
        UnitStmt::Assign(_, _, _, value) => expr_len(value).saturating_add(9),
        UnitStmt::If(test, then, other) => expr_len(test)
            .saturating_add(block_len(then.as_slice()))
            .saturating_add(block_len(other.as_slice()))
            .saturating_add(1),
        UnitStmt::While(test, body) => expr_len(test)
            .saturating_add(block_len(body.as_slice()))
            .saturating_add(1),
        UnitStmt::Return(value)
        | UnitStmt::Print(value)
        | UnitStmt::Assert(value)
        | UnitStmt::Eval(value) => expr_len(value).saturating_add(1),
    }
}

// How long the text of a block is.
#[cycle(length)]
pub(super) fn block_len(stmts: &[UnitStmt]) -> usize {
    let mut len = 4usize;
    for stmt in stmts {
        len = len.saturating_add(stmt_len(stmt));
    }
    len
}

// A tag, and the expression after it.
fn put_tagged(out: &mut Vec<u8>, tag: u8, value: &UnitExpr) -> Result<(), AllocError>
    ensures { OnOk result (out.new.items ≡ out.old.items ++ tag ∷ spell_expr (expr_view value.now)) }
{
    put_byte(out, tag)?;
    put_expr(out, value)?;
    Ok(())
}

// What stands before the value of a local's first value.
fn put_let(out: &mut Vec<u8>, local: u32) -> Result<(), AllocError>
    ensures { OnOk result (out.new.items ≡ out.old.items ++ 0x01 ∷ four local) }
{
    put_byte(out, 0x01)?;
    put_four(out, local)?;
    Ok(())
}

// What stands before the value of an assignment.
fn put_place(out: &mut Vec<u8>, local: u32, offset: u16, width: u16) -> Result<(), AllocError>
    ensures { OnOk result (out.new.items ≡ out.old.items ++ 0x02 ∷ (four local ++ (two offset ++ two width))) }
{
    put_byte(out, 0x02)?;
    put_four(out, local)?;
    put_two(out, offset)?;
    put_two(out, width)?;
    Ok(())
}

#[cycle(stmt)]
fn put_stmt(out: &mut Vec<u8>, stmt: &UnitStmt) -> Result<(), AllocError>
    ensures { OnOk result (out.new.items ≡ out.old.items ++ spell_stmt (stmt_view stmt.now)) }
{
    match stmt {
        UnitStmt::Let(local, value) => {
            put_let(out, *local)?;
            put_expr(out, value)?;
            Ok(())
        }
        UnitStmt::Assign(local, offset, width, value) => {
            put_place(out, *local, *offset, *width)?;
            put_expr(out, value)?;
            Ok(())
        }
        UnitStmt::If(test, then, other) => {
            put_tagged(out, 0x03, test)?;
            put_block(out, then.as_slice())?;
            put_block(out, other.as_slice())?;
            Ok(())
        }
        UnitStmt::While(test, body) => {
            put_tagged(out, 0x04, test)?;
            put_block(out, body.as_slice())?;
            Ok(())
        }
        UnitStmt::Return(value) => {
            put_tagged(out, 0x05, value)?;
            Ok(())
        }
        UnitStmt::Print(value) => {
            put_tagged(out, 0x06, value)?;
            Ok(())
        }
        UnitStmt::Assert(value) => {
            put_tagged(out, 0x07, value)?;
            Ok(())
        }
        UnitStmt::Eval(value) => {
            put_tagged(out, 0x08, value)?;
            Ok(())
        }
    }
}

// The statements of a block, behind their count.
#[cycle(stmt)]
pub(super) fn put_block(out: &mut Vec<u8>, stmts: &[UnitStmt]) -> Result<(), AllocError>
    ensures { OnOk result (out.new.items ≡ out.old.items ++ spell_block (stmts_view stmts.now)) }
{
    put_long_count(out, stmts.len())?;
    for stmt in stmts {
        put_stmt(out, stmt)?;
    }
    Ok(())
}
