//! Statements.

ghost use Rattle.std.specs.Prelude.{◌≡◌, ◌++◌, length, OnOk};
ghost use Rattle.unit_ir.specs.ExprView.{expr_view};
ghost use Rattle.unit_ir.specs.StmtView.{stmt_view, stmts_view};
ghost use Rattle.unit_emit.specs.Code.{Emits, several, pops, stmt_code, stmts_code};

use crate::buffer::{mend, put, put_number};
use crate::exprs::{emit_expr, put_stores};
use object_format::Opcode;
use std::alloc::AllocError;
use unit_ir::IrStmt;

fn put_pops(code: &mut Vec<u8>, count: u8) -> Result<(), AllocError>
    ensures { OnOk result (Emits code.old.items (several (pops count)) code.new.items) }
{
    let mut left = count;
    while left > 0 {
        left -= 1;
        put(code, Opcode::Pop)?;
    }
    Ok(())
}

#[cycle(stmt)]
pub(crate) fn emit_stmt(code: &mut Vec<u8>, stmt: &IrStmt) -> Result<(), AllocError>
    ensures { OnOk result (Emits code.old.items (stmt_code (stmt_view stmt.now)) code.new.items) }
{
    match stmt {
        IrStmt::Store(first, count, e) => {
            emit_expr(code, e)?;
            put_stores(code, *first, *count)?;
            Ok(())
        }
        IrStmt::If(e, a, b) => {
            if b.is_empty() {
                emit_expr(code, e)?;
                let test = code.len();
                put_number(code, Opcode::JumpZero, 0)?;
                emit_stmts(code, a.as_slice())?;
                let end = code.len();
                mend(code, test + 1, end);
                Ok(())
            } else {
                emit_expr(code, e)?;
                let test = code.len();
                put_number(code, Opcode::JumpZero, 0)?;
                emit_stmts(code, a.as_slice())?;
                let other = code.len();
                put_number(code, Opcode::Jump, 0)?;
                emit_stmts(code, b.as_slice())?;
                let end = code.len();
                mend(code, test + 1, other + 5);
                mend(code, other + 1, end);
                Ok(())
            }
        }
        IrStmt::While(e, a) => {
            let start = code.len();
            emit_expr(code, e)?;
            let test = code.len();
            put_number(code, Opcode::JumpZero, 0)?;
            emit_stmts(code, a.as_slice())?;
            let other = code.len();
            put_number(code, Opcode::Jump, 0)?;
            mend(code, test + 1, other + 5);
            mend(code, other + 1, start);
            Ok(())
        }
        IrStmt::Return(e) => {
            emit_expr(code, e)?;
            put(code, Opcode::Return)?;
            Ok(())
        }
        IrStmt::Print(e) => {
            emit_expr(code, e)?;
            put(code, Opcode::Print)?;
            Ok(())
        }
        IrStmt::Eval(e, count) => {
            emit_expr(code, e)?;
            put_pops(code, *count)?;
            Ok(())
        }
    }
}

#[cycle(stmt)]
pub(crate) fn emit_stmts(code: &mut Vec<u8>, stmts: &[IrStmt]) -> Result<(), AllocError>
    ensures { OnOk result (Emits code.old.items (stmts_code (stmts_view stmts.now)) code.new.items) }
{
    for stmt in stmts {
        emit_stmt(code, stmt)?;
    }
    Ok(())
}
