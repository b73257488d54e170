//! Expressions: trees that give words. The constructors take parts that are made, and contracts see the plain tree.

ghost use Rattle.std.specs.Prelude.{◌≡◌, IfOk};
ghost use Rattle.unit_ir.specs.Exprs as plain;
ghost use Rattle.unit_ir.specs.ExprView.{expr_view, exprs_view};

use crate::{Binary, Unary};
use sqlite_items::{Boxed, Items};
use std::alloc::{AllocError, Global};

/// An expression, which gives words. A function's slots have numbers from 0 on, and a call's number counts the functions of
/// its unit and then the externals.
#[derive(Drop)]
pub enum IrExpr {
    Const(i64),
    /// The word in a slot.
    Load(u8),
    Op1(Unary, Boxed<IrExpr>),
    Op2(Binary, Boxed<IrExpr>, Boxed<IrExpr>),
    /// The second, or 0 where the first is 0.
    And(Boxed<IrExpr>, Boxed<IrExpr>),
    /// 1, or the second where the first is 0.
    Or(Boxed<IrExpr>, Boxed<IrExpr>),
    Call(u32, Items<IrExpr>),
    /// The words of its parts in order.
    Seq(Items<IrExpr>),
    /// Puts so many words of the first expression into slots from this one on, and gives the second.
    Bind(u8, u8, Boxed<IrExpr>, Boxed<IrExpr>),
}

impl IrExpr {
    pub fn constant(value: i64) -> IrExpr
        ensures { expr_view result ≡ plain.word value }
    {
        IrExpr::Const(value)
    }

    pub fn load(slot: u8) -> IrExpr
        ensures { expr_view result ≡ plain.load slot }
    {
        IrExpr::Load(slot)
    }

    pub fn unary(alloc: Global, op: Unary, a: IrExpr) -> Result<IrExpr, AllocError>
        ensures { IfOk result (λ e. expr_view e ≡ plain.op1 op (expr_view a)) }
    {
        Ok(IrExpr::Op1(op, Boxed::new(alloc, a)?))
    }

    pub fn binary(alloc: Global, op: Binary, a: IrExpr, b: IrExpr) -> Result<IrExpr, AllocError>
        ensures { IfOk result (λ e. expr_view e ≡ plain.op2 op (expr_view a) (expr_view b)) }
    {
        Ok(IrExpr::Op2(op, Boxed::new(alloc, a)?, Boxed::new(alloc, b)?))
    }

    pub fn and(alloc: Global, a: IrExpr, b: IrExpr) -> Result<IrExpr, AllocError>
        ensures { IfOk result (λ e. expr_view e ≡ plain.both (expr_view a) (expr_view b)) }
    {
        Ok(IrExpr::And(Boxed::new(alloc, a)?, Boxed::new(alloc, b)?))
    }

    pub fn or(alloc: Global, a: IrExpr, b: IrExpr) -> Result<IrExpr, AllocError>
        ensures { IfOk result (λ e. expr_view e ≡ plain.either (expr_view a) (expr_view b)) }
    {
        Ok(IrExpr::Or(Boxed::new(alloc, a)?, Boxed::new(alloc, b)?))
    }

    pub fn call(function: u32, args: Items<IrExpr>) -> IrExpr
        ensures { expr_view result ≡ plain.call function (exprs_view args) }
    {
        IrExpr::Call(function, args)
    }

    pub fn seq(parts: Items<IrExpr>) -> IrExpr
        ensures { expr_view result ≡ plain.seq (exprs_view parts) }
    {
        IrExpr::Seq(parts)
    }

    /// Puts so many words of `value` into slots from `first` on, and gives `rest`.
    pub fn bind(
        alloc: Global,
        first: u8,
        count: u8,
        value: IrExpr,
        rest: IrExpr,
    ) -> Result<IrExpr, AllocError>
        ensures { IfOk result (λ e. expr_view e ≡ plain.bind first count (expr_view value) (expr_view rest)) }
    {
        Ok(IrExpr::Bind(
            first,
            count,
            Boxed::new(alloc, value)?,
            Boxed::new(alloc, rest)?,
        ))
    }
}
