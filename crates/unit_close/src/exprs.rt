//! What becomes of expressions. Each is gone through once; parts of a list by a loop. Calls nest as deep as expressions do.
ghost use Rattle.std.specs.Prelude.{◌≡◌, ◌<◌, length, slice_get, IfOk};
ghost use Rattle.lar_typed.specs.ExprView.{expr_view, exprs_view};
ghost use Rattle.unit_input.specs.InputView as unit;
ghost use Rattle.closed_input.specs.Bodies as plain;
ghost use Rattle.unit_close.specs.Sight.{sight, IsAround};
ghost use Rattle.unit_close.specs.Ready.{Ready, AllReady};
ghost use Rattle.unit_close.specs.States.{IsMade, AreMade};

use crate::around::Around;
use lar_typed::{BinaryOp, Node, TypedConst, TypedExpr, UnaryOp};
use sqlite_items::Items;
use std::alloc::{AllocError, Global};
use unit_input::{BinaryOp as UnitBinary, UnaryOp as UnitUnary, UnitExpr};

fn unary_of(op: UnaryOp) -> UnitUnary
    ensures { result ≡ plain.unary_of op }
{
    match op {
        UnaryOp::Minus => UnitUnary::Neg,
        UnaryOp::Not => UnitUnary::Not,
    }
}

fn binary_of(op: BinaryOp) -> UnitBinary
    ensures { result ≡ plain.binary_of op }
{
    match op {
        BinaryOp::Or => UnitBinary::Or,
        BinaryOp::And => UnitBinary::And,
        BinaryOp::Equal => UnitBinary::Equal,
        BinaryOp::NotEqual => UnitBinary::NotEqual,
        BinaryOp::Less => UnitBinary::Less,
        BinaryOp::AtMost => UnitBinary::AtMost,
        BinaryOp::Greater => UnitBinary::Greater,
        BinaryOp::AtLeast => UnitBinary::AtLeast,
        BinaryOp::Plus => UnitBinary::Add,
        BinaryOp::Minus => UnitBinary::Sub,
        BinaryOp::Star => UnitBinary::Mul,
        BinaryOp::Slash => UnitBinary::Div,
        BinaryOp::Percent => UnitBinary::Rem,
    }
}

fn const_value(consts: &[TypedConst], place: usize) -> i64
    requires { place < length consts.now }
    ensures { result ≡ plain.const_value (slice_get consts.now place) }
{
    consts[place].value
}

/// What becomes of an expression. `next` is how many calls of the body came before it.
#[cycle(exprs)]
pub(crate) fn close_expr(
    expr: &TypedExpr,
    alloc: Global,
    around: &Around,
    next: &mut usize,
) -> Result<UnitExpr, AllocError>
    requires around { IsAround around.now }
    requires ready { Ready (sight around.now) next.old (expr_view expr.now) }
    ensures { IfOk result (λ r. IsMade (sight around.now) next.old (expr_view expr.now) next.new (unit.expr_view r)) }
{
    match &expr.node {
        Node::Int(value) => Ok(UnitExpr::int(*value)),
        Node::Bool(value) => Ok(UnitExpr::truth(*value)),
        Node::Local(number) => Ok(UnitExpr::local(*number as u32)),
        Node::Const(place) => Ok(UnitExpr::int(const_value(around.consts, *place))),
        Node::Generic(place) => Ok(UnitExpr::int(around.numbers[*place])),
        Node::Tuple(parts) => {
            let parts = close_exprs(parts.as_slice(), alloc, around, next)?;
            Ok(UnitExpr::tuple(parts))
        }
        Node::New(fields) => {
            let fields = close_exprs(fields.as_slice(), alloc, around, next)?;
            Ok(UnitExpr::tuple(fields))
        }
        Node::Field(whole, place) => {
            let whole = whole.get();
            let measure = &around.measure;
            let offset = measure.until(alloc, around.widths, whole.of, *place)?;
            let width = measure.width(around.widths, expr.of);
            let value = close_expr(whole, alloc, around, next)?;
            UnitExpr::field(alloc, value, offset, width)
        }
        Node::Unary(op, value) => {
            let value = close_expr(value.get(), alloc, around, next)?;
            UnitExpr::unary(alloc, unary_of(*op), value)
        }
        Node::Binary(op, left, right) => {
            let left = close_expr(left.get(), alloc, around, next)?;
            let right = close_expr(right.get(), alloc, around, next)?;
            UnitExpr::binary(alloc, binary_of(*op), left, right)
        }
        Node::Call(call) => {
            let callee = around.calls[*next];
            *next += 1;
            let args = close_exprs(call.get().args.as_slice(), alloc, around, next)?;
            Ok(UnitExpr::call(callee, args))
        }
    }
}

/// What becomes of the members of a list.
#[cycle(exprs)]
fn close_exprs(
    exprs: &[TypedExpr],
    alloc: Global,
    around: &Around,
    next: &mut usize,
) -> Result<Items<UnitExpr>, AllocError>
    requires around { IsAround around.now }
    requires ready { AllReady (sight around.now) next.old (exprs_view exprs.now) }
    ensures { IfOk result (λ rs. AreMade (sight around.now) next.old (exprs_view exprs.now) next.new (unit.exprs_view rs)) }
{
    let mut made = Items::new(alloc);
    for expr in exprs {
        made.push(close_expr(expr, alloc, around, next)?)?;
    }
    Ok(made)
}
