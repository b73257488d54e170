//! Expressions whose names are numbers, each with the number of its type.
ghost use Rattle.std.specs.Prelude.{◌≡◌, IfOk};
ghost use Rattle.lar_typed.specs.Exprs as plain;
ghost use Rattle.lar_typed.specs.ExprView as view;

use crate::{BinaryOp, UnaryOp};
use lar_source::Span;
use sqlite_items::{Boxed, Items};
use std::alloc::{AllocError, Global};

/// An expression.
#[cycle(expr)]
#[derive(Drop)]
pub struct TypedExpr {
    /// Its type, as the number of a row.
    pub of: usize,
    pub node: Node,
}

/// What an expression is made of.
#[cycle(expr)]
#[derive(Drop)]
pub enum Node {
    Int(i64),
    Bool(bool),
    /// A local of the function, by its number.
    Local(usize),
    /// A constant, by its place among all constants.
    Const(usize),
    /// A const generic of the function, by its place among the generics.
    Generic(usize),
    /// A tuple's parts, in order; none for `()`.
    Tuple(Items<TypedExpr>),
    /// A struct's fields, in order.
    New(Items<TypedExpr>),
    /// A part of a tuple or a field of a struct, by its place.
    Field(Boxed<TypedExpr>, usize),
    Unary(UnaryOp, Boxed<TypedExpr>),
    Binary(BinaryOp, Boxed<TypedExpr>, Boxed<TypedExpr>),
    Call(Boxed<TypedCall>),
}

/// A call.
#[cycle(expr)]
#[derive(Drop)]
pub struct TypedCall {
    /// The function that is called, by its place among all functions.
    pub callee: usize,
    /// The list of the arguments for its generics, as the number of a row.
    pub generics: usize,
    pub args: Items<TypedExpr>,
    /// Where the callee's path stands.
    pub at: Span,
}

impl TypedExpr {
    pub fn int(of: usize, value: i64) -> TypedExpr
        ensures { view.expr_view result ≡ plain.int of value }
    {
        TypedExpr {
            of,
            node: Node::Int(value),
        }
    }

    pub fn truth(of: usize, value: bool) -> TypedExpr
        ensures { view.expr_view result ≡ plain.truth of value }
    {
        TypedExpr {
            of,
            node: Node::Bool(value),
        }
    }

    pub fn local(of: usize, number: usize) -> TypedExpr
        ensures { view.expr_view result ≡ plain.local of number }
    {
        TypedExpr {
            of,
            node: Node::Local(number),
        }
    }

    pub fn constant(of: usize, place: usize) -> TypedExpr
        ensures { view.expr_view result ≡ plain.constant of place }
    {
        TypedExpr {
            of,
            node: Node::Const(place),
        }
    }

    pub fn generic(of: usize, place: usize) -> TypedExpr
        ensures { view.expr_view result ≡ plain.generic of place }
    {
        TypedExpr {
            of,
            node: Node::Generic(place),
        }
    }

    pub fn tuple(of: usize, parts: Items<TypedExpr>) -> TypedExpr
        ensures { view.expr_view result ≡ plain.tuple_of of (view.exprs_view parts) }
    {
        TypedExpr {
            of,
            node: Node::Tuple(parts),
        }
    }

    /// A struct made from its fields.
    pub fn new(of: usize, fields: Items<TypedExpr>) -> TypedExpr
        ensures { view.expr_view result ≡ plain.made of (view.exprs_view fields) }
    {
        TypedExpr {
            of,
            node: Node::New(fields),
        }
    }

    pub fn field(
        alloc: Global,
        of: usize,
        inner: TypedExpr,
        place: usize,
    ) -> Result<TypedExpr, AllocError>
        ensures { IfOk result (λ e. view.expr_view e ≡ plain.part of (view.expr_view inner) place) }
    {
        Ok(TypedExpr {
            of,
            node: Node::Field(Boxed::new(alloc, inner)?, place),
        })
    }

    pub fn unary(
        alloc: Global,
        of: usize,
        op: UnaryOp,
        inner: TypedExpr,
    ) -> Result<TypedExpr, AllocError>
        ensures { IfOk result (λ e. view.expr_view e ≡ plain.unary of op (view.expr_view inner)) }
    {
        Ok(TypedExpr {
            of,
            node: Node::Unary(op, Boxed::new(alloc, inner)?),
        })
    }

    pub fn binary(
        alloc: Global,
        of: usize,
        op: BinaryOp,
        left: TypedExpr,
        right: TypedExpr,
    ) -> Result<TypedExpr, AllocError>
        ensures { IfOk result (λ e. view.expr_view e ≡ plain.binary of op (view.expr_view left) (view.expr_view right)) }
    {
        Ok(TypedExpr {
            of,
            node: Node::Binary(op, Boxed::new(alloc, left)?, Boxed::new(alloc, right)?),
        })
    }

    pub fn call(
        alloc: Global,
        of: usize,
        callee: usize,
        generics: usize,
        args: Items<TypedExpr>,
        at: Span,
    ) -> Result<TypedExpr, AllocError>
        ensures { IfOk result (λ e. view.expr_view e ≡ plain.call of callee generics (view.exprs_view args) at) }
    {
        let call = TypedCall {
            callee,
            generics,
            args,
            at,
        };
        Ok(TypedExpr {
            of,
            node: Node::Call(Boxed::new(alloc, call)?),
        })
    }
}
