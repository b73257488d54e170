//! Expressions of a unit's input. Each gives a number of words: one for a number or a truth, and the sum of its parts for a tuple.
ghost use Rattle.std.specs.Prelude.{◌≡◌, IfOk};
ghost use Rattle.unit_input.specs.Exprs as plain;
ghost use Rattle.unit_input.specs.InputView.{expr_view, exprs_view};

use sqlite_items::{Boxed, Items};
use std::alloc::{AllocError, Global};

/// An operator on one word.
#[derive(Clone, Copy, Debug, PartialEq, Eq)]
pub enum UnaryOp {
    Neg,
    Not,
}

/// An operator on two words.
#[derive(Clone, Copy, Debug, PartialEq, Eq)]
pub enum BinaryOp {
    Add,
    Sub,
    Mul,
    Div,
    Rem,
    Equal,
    NotEqual,
    Less,
    AtMost,
    Greater,
    AtLeast,
    /// `&&`, which leaves out its right side where the left is false.
    And,
    /// `||`, which leaves out its right side where the left is true.
    Or,
}

/// An expression.
#[derive(Drop)]
pub enum UnitExpr {
    Int(i64),
    Bool(bool),
    /// A local of its function, by its number.
    Local(u32),
    /// So many words of a value, from this offset on: offset and width count words, and 256 stands for all above 255.
    Field(Boxed<UnitExpr>, u16, u16),
    /// A tuple, or a struct with its fields in declared order.
    Tuple(Items<UnitExpr>),
    Unary(UnaryOp, Boxed<UnitExpr>),
    Binary(BinaryOp, Boxed<UnitExpr>, Boxed<UnitExpr>),
    /// A call. The number counts the unit's functions and then its externals.
    Call(u32, Items<UnitExpr>),
}

impl UnitExpr {
    pub fn int(value: i64) -> UnitExpr
        ensures { expr_view result ≡ plain.int value }
    {
        UnitExpr::Int(value)
    }

    pub fn truth(value: bool) -> UnitExpr
        ensures { expr_view result ≡ plain.truth value }
    {
        UnitExpr::Bool(value)
    }

    pub fn local(number: u32) -> UnitExpr
        ensures { expr_view result ≡ plain.local number }
    {
        UnitExpr::Local(number)
    }

    pub fn field(
        alloc: Global,
        value: UnitExpr,
        offset: u16,
        width: u16,
    ) -> Result<UnitExpr, AllocError>
        ensures { IfOk result (λ e. expr_view e ≡ plain.field (expr_view value) offset width) }
    {
        Ok(UnitExpr::Field(Boxed::new(alloc, value)?, offset, width))
    }

    pub fn tuple(parts: Items<UnitExpr>) -> UnitExpr
        ensures { expr_view result ≡ plain.tuple (exprs_view parts) }
    {
        UnitExpr::Tuple(parts)
    }

    pub fn unary(alloc: Global, op: UnaryOp, value: UnitExpr) -> Result<UnitExpr, AllocError>
        ensures { IfOk result (λ e. expr_view e ≡ plain.unary op (expr_view value)) }
    {
        Ok(UnitExpr::Unary(op, Boxed::new(alloc, value)?))
    }

    pub fn binary(
        alloc: Global,
        op: BinaryOp,
        left: UnitExpr,
        right: UnitExpr,
    ) -> Result<UnitExpr, AllocError>
        ensures { IfOk result (λ e. expr_view e ≡ plain.binary op (expr_view left) (expr_view right)) }
    {
        Ok(UnitExpr::Binary(op, Boxed::new(alloc, left)?, Boxed::new(alloc, right)?))
    }

    pub fn call(callee: u32, args: Items<UnitExpr>) -> UnitExpr
        ensures { expr_view result ≡ plain.call callee (exprs_view args) }
    {
        UnitExpr::Call(callee, args)
    }
}
