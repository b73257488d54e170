//! Expressions.

ghost use Rattle.std.specs.Prelude.{◌≡◌, ◌++◌, length, OnOk};
ghost use Rattle.unit_ir.specs.ExprView.{expr_view, exprs_view};
ghost use Rattle.unit_emit.specs.Code.{Emits, several, expr_code, exprs_code, stores, unary_opcode, binary_opcode};

use crate::buffer::{mend, put, put_byte, put_number, put_push};
use object_format::{Opcode, Operator};
use std::alloc::AllocError;
use unit_ir::{Binary, IrExpr, Unary};

fn unary_opcode(op: Unary) -> Opcode
    ensures { result ≡ unary_opcode op }
{
    match op {
        Unary::Neg => Opcode::Neg,
        Unary::Not => Opcode::Not,
    }
}

fn binary_opcode(op: Binary) -> Opcode
    ensures { result ≡ binary_opcode op }
{
    Opcode::Compute(match op {
        Binary::Add => Operator::Add,
        Binary::Sub => Operator::Sub,
        Binary::Mul => Operator::Mul,
        Binary::Div => Operator::Div,
        Binary::Rem => Operator::Rem,
        Binary::Equal => Operator::Equal,
        Binary::NotEqual => Operator::NotEqual,
        Binary::Less => Operator::Less,
        Binary::AtMost => Operator::AtMost,
        Binary::Greater => Operator::Greater,
        Binary::AtLeast => Operator::AtLeast,
    })
}

/// STORE from the last of so many slots down to the first. A slot past 255 is none.
pub(crate) fn put_stores(code: &mut Vec<u8>, first: u8, count: u8) -> Result<(), AllocError>
    ensures { OnOk result (Emits code.old.items (several (stores first count)) code.new.items) }
{
    let mut left = count;
    while left > 0 {
        left -= 1;
        put_byte(code, Opcode::Store, first.wrapping_add(left))?;
    }
    Ok(())
}

#[cycle(expr)]
pub(crate) fn emit_expr(code: &mut Vec<u8>, expr: &IrExpr) -> Result<(), AllocError>
    ensures { OnOk result (Emits code.old.items (expr_code (expr_view expr.now)) code.new.items) }
{
    match expr {
        IrExpr::Const(value) => put_push(code, *value),
        IrExpr::Load(slot) => put_byte(code, Opcode::Load, *slot),
        IrExpr::Op1(op, a) => {
            emit_expr(code, a.get())?;
            put(code, unary_opcode(*op))?;
            Ok(())
        }
        IrExpr::Op2(op, a, b) => {
            emit_expr(code, a.get())?;
            emit_expr(code, b.get())?;
            put(code, binary_opcode(*op))?;
            Ok(())
        }
        IrExpr::And(a, b) => {
            emit_expr(code, a.get())?;
            let test = code.len();
            put_number(code, Opcode::JumpZero, 0)?;
            emit_expr(code, b.get())?;
            let other = code.len();
            put_number(code, Opcode::Jump, 0)?;
            put_push(code, 0)?;
            mend(code, test + 1, other + 5);
            mend(code, other + 1, other + 7);
            Ok(())
        }
        IrExpr::Or(a, b) => {
            emit_expr(code, a.get())?;
            let test = code.len();
            put_number(code, Opcode::JumpZero, 0)?;
            put_push(code, 1)?;
            put_number(code, Opcode::Jump, 0)?;
            emit_expr(code, b.get())?;
            mend(code, test + 1, test + 12);
            mend(code, test + 8, code.len());
            Ok(())
        }
        IrExpr::Call(function, args) => {
            emit_exprs(code, args.as_slice())?;
            put_number(code, Opcode::Call, *function)?;
            Ok(())
        }
        IrExpr::Seq(parts) => emit_exprs(code, parts.as_slice()),
        IrExpr::Bind(first, count, a, b) => {
            emit_expr(code, a.get())?;
            put_stores(code, *first, *count)?;
            emit_expr(code, b.get())?;
            Ok(())
        }
    }
}

#[cycle(expr)]
fn emit_exprs(code: &mut Vec<u8>, exprs: &[IrExpr]) -> Result<(), AllocError>
    ensures { OnOk result (Emits code.old.items (exprs_code (exprs_view exprs.now)) code.new.items) }
{
    for expr in exprs {
        emit_expr(code, expr)?;
    }
    Ok(())
}
