//! Expressions.
ghost use Rattle.std.specs.Prelude.{◌≡◌, ◌++◌, ◌∷◌, [], OnOk};
ghost use Rattle.unit_input.specs.Exprs as plain;
ghost use Rattle.unit_input.specs.InputView.{expr_view, exprs_view};
ghost use Rattle.unit_input.specs.Spelling.{truth_byte, unary_byte, binary_byte, one, two, four, spell_expr, spell_exprs};

use crate::{BinaryOp, UnaryOp, UnitExpr};
use std::alloc::AllocError;

impl UnaryOp {
    // The opcode of its instruction.
    fn byte(self) -> u8
        ensures { result ≡ unary_byte self }
    {
        match self {
            UnaryOp::Neg => 0x0b,
            UnaryOp::Not => 0x12,
        }
    }
}

impl BinaryOp {
    // The opcode of its instruction, and numbers past those for `&&` and `||`.
    fn byte(self) -> u8
        ensures { result ≡ binary_byte self }
    {
        match self {
            BinaryOp::Add => 0x06,
            BinaryOp::Sub => 0x07,
            BinaryOp::Mul => 0x08,
            BinaryOp::Div => 0x09,
            BinaryOp::Rem => 0x0a,
            BinaryOp::Equal => 0x0c,
            BinaryOp::NotEqual => 0x0d,
            BinaryOp::Less => 0x0e,
            BinaryOp::AtMost => 0x0f,
            BinaryOp::Greater => 0x10,
            BinaryOp::AtLeast => 0x11,
            BinaryOp::And => 0x20,
            BinaryOp::Or => 0x21,
        }
    }
}

// How long the text of an expression is.
#[cycle(length)]
pub(super) fn expr_len(expr: &UnitExpr) -> usize {
    match expr {
        UnitExpr::Int(_) => 9,
        UnitExpr::Bool(_) => 2,
        UnitExpr::Local(_) => 5,
        UnitExpr::Field(value, _, _) => expr_len(value.get()).saturating_add(5),
        UnitExpr::Tuple(parts) => exprs_len(parts.as_slice()).saturating_add(2),
        UnitExpr::Unary(_, value) => expr_len(value.get()).saturating_add(2),
        UnitExpr::Binary(_, left, right) => expr_len(left.get())
            .saturating_add(expr_len(right.get()))
            .saturating_add(2),
        UnitExpr::Call(_, args) => exprs_len(args.as_slice()).saturating_add(6),
    }
}

#[cycle(length)]
fn exprs_len(exprs: &[UnitExpr]) -> usize {
    let mut len = 0usize;
    for expr in exprs {
        len = len.saturating_add(expr_len(expr));
    }
    len
}

pub(super) fn put_byte(out: &mut Vec<u8>, byte: u8) -> Result<(), AllocError>
    ensures { OnOk result (out.new.items ≡ out.old.items ++ byte ∷ []) }
{
    out.push(byte)?;
    Ok(())
}

pub(super) fn put_truth(out: &mut Vec<u8>, value: bool) -> Result<(), AllocError>
    ensures { OnOk result (out.new.items ≡ out.old.items ++ truth_byte value ∷ []) }
{
    put_byte(out, u8::from(value))
}

pub(super) fn put_two(out: &mut Vec<u8>, number: u16) -> Result<(), AllocError>
    ensures { OnOk result (out.new.items ≡ out.old.items ++ two number) }
{
    out.extend_from_slice(&number.to_be_bytes())?;
    Ok(())
}

pub(super) fn put_four(out: &mut Vec<u8>, number: u32) -> Result<(), AllocError>
    ensures { OnOk result (out.new.items ≡ out.old.items ++ four number) }
{
    out.extend_from_slice(&number.to_be_bytes())?;
    Ok(())
}

fn put_int(out: &mut Vec<u8>, value: i64) -> Result<(), AllocError>
    ensures { OnOk result (out.new.items ≡ out.old.items ++ spell_expr (plain.int value)) }
{
    put_byte(out, 0x01)?;
    out.extend_from_slice(&value.to_be_bytes())?;
    Ok(())
}

// A number of which the text has the lowest byte alone.
fn put_count(out: &mut Vec<u8>, count: usize) -> Result<(), AllocError>
    ensures { OnOk result (out.new.items ≡ out.old.items ++ one count) }
{
    out.extend_from_slice(&count.to_be_bytes()[7..])?;
    Ok(())
}

// A number of which the text has the lowest four bytes alone.
pub(super) fn put_long_count(out: &mut Vec<u8>, count: usize) -> Result<(), AllocError>
    ensures { OnOk result (out.new.items ≡ out.old.items ++ four count) }
{
    out.extend_from_slice(&count.to_be_bytes()[4..])?;
    Ok(())
}

#[cycle(expr)]
pub(super) fn put_expr(out: &mut Vec<u8>, expr: &UnitExpr) -> Result<(), AllocError>
    ensures { OnOk result (out.new.items ≡ out.old.items ++ spell_expr (expr_view expr.now)) }
{
    match expr {
        UnitExpr::Int(value) => put_int(out, *value),
        UnitExpr::Bool(value) => {
            put_byte(out, 0x02)?;
            put_truth(out, *value)?;
            Ok(())
        }
        UnitExpr::Local(number) => {
            put_byte(out, 0x03)?;
            put_four(out, *number)?;
            Ok(())
        }
        UnitExpr::Field(value, offset, width) => {
            put_byte(out, 0x04)?;
            put_two(out, *offset)?;
            put_two(out, *width)?;
            put_expr(out, value.get())?;
            Ok(())
        }
        UnitExpr::Tuple(parts) => {
            put_byte(out, 0x05)?;
            put_count(out, parts.len())?;
            put_exprs(out, parts.as_slice())?;
            Ok(())
        }
        UnitExpr::Unary(op, value) => {
            put_byte(out, 0x06)?;
            put_byte(out, op.byte())?;
            put_expr(out, value.get())?;
            Ok(())
        }
        UnitExpr::Binary(op, left, right) => {
            put_byte(out, 0x07)?;
            put_byte(out, op.byte())?;
            put_expr(out, left.get())?;
            put_expr(out, right.get())?;
            Ok(())
        }
        UnitExpr::Call(callee, args) => {
            put_byte(out, 0x08)?;
            put_four(out, *callee)?;
            put_count(out, args.len())?;
            put_exprs(out, args.as_slice())?;
            Ok(())
        }
    }
}

#[cycle(expr)]
fn put_exprs(out: &mut Vec<u8>, exprs: &[UnitExpr]) -> Result<(), AllocError>
    ensures { OnOk result (out.new.items ≡ out.old.items ++ spell_exprs (exprs_view exprs.now)) }
{
    for expr in exprs {
        put_expr(out, expr)?;
    }
    Ok(())
}
