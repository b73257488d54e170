//! What operators become.

ghost use Rattle.std.specs.Prelude.{◌≡◌};
ghost use Rattle.unit_lower.specs.Lowering as plain;

use unit_input::{BinaryOp, UnaryOp};
use unit_ir::{Binary, Unary};

/// What an operator on two words becomes: an operator that needs both, or one that may leave out its right side.
#[derive(Clone, Copy, Debug, PartialEq, Eq)]
pub(crate) enum Operator {
    OnWords(Binary),
    And,
    Or,
}

/// What an operator on one word becomes.
pub(crate) fn unary_of(op: UnaryOp) -> Unary
    ensures { result ≡ plain.unary_of op }
{
    match op {
        UnaryOp::Neg => Unary::Neg,
        UnaryOp::Not => Unary::Not,
    }
}

/// What an operator on two words becomes.
pub(crate) fn operator_of(op: BinaryOp) -> Operator
    ensures { result ≡ plain.operator_of op }
{
    match op {
        BinaryOp::Add => Operator::OnWords(Binary::Add),
        BinaryOp::Sub => Operator::OnWords(Binary::Sub),
        BinaryOp::Mul => Operator::OnWords(Binary::Mul),
        BinaryOp::Div => Operator::OnWords(Binary::Div),
        BinaryOp::Rem => Operator::OnWords(Binary::Rem),
        BinaryOp::Equal => Operator::OnWords(Binary::Equal),
        BinaryOp::NotEqual => Operator::OnWords(Binary::NotEqual),
        BinaryOp::Less => Operator::OnWords(Binary::Less),
        BinaryOp::AtMost => Operator::OnWords(Binary::AtMost),
        BinaryOp::Greater => Operator::OnWords(Binary::Greater),
        BinaryOp::AtLeast => Operator::OnWords(Binary::AtLeast),
        BinaryOp::And => Operator::And,
        BinaryOp::Or => Operator::Or,
    }
}
