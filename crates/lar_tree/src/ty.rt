ghost use Rattle.std.specs.Prelude.{◌≡◌, IfOk};
ghost use Rattle.lar_tree.specs.Types as plain;
ghost use Rattle.lar_tree.specs.TypeView as view;

use crate::optional::boxed;
use crate::{Commas, Member, Path, Span};
use sqlite_items::{Boxed, Items};
use std::alloc::{AllocError, Global};

/// A number with the sign before it, if there is one.
#[derive(Clone, Copy, Debug, PartialEq, Eq)]
pub struct SignedNumber {
    pub minus: Option<Span>,
    pub value: i64,
    pub span: Span,
}

/// A type as it is written.
#[cycle(types)]
#[derive(Drop)]
pub enum Ty {
    /// `i64`
    Int(Span),
    /// `bool`
    Bool(Span),
    /// `()`
    Unit(Span, Span),
    Tuple(Boxed<TupleTy>),
    /// A path and what stands in angle brackets after it.
    Named(Path, Option<Boxed<GenericArgs>>),
}

/// Two types or more in brackets.
#[cycle(types)]
#[derive(Drop)]
pub struct TupleTy {
    pub open: Span,
    pub first: Ty,
    pub comma: Span,
    pub second: Ty,
    pub more: Items<Member<Ty>>,
    pub close: Span,
}

/// The generics in angle brackets.
#[cycle(types)]
#[derive(Drop)]
pub struct GenericArgs {
    pub open: Span,
    pub list: Commas<GenericArg>,
    pub close: Span,
}

#[cycle(types)]
#[derive(Drop)]
pub enum GenericArg {
    Ty(Ty),
    Number(SignedNumber),
}

impl Ty {
    pub fn int(at: Span) -> Ty
        ensures { view.type_view result ≡ plain.int_type at }
    {
        Ty::Int(at)
    }

    pub fn bool(at: Span) -> Ty
        ensures { view.type_view result ≡ plain.bool_type at }
    {
        Ty::Bool(at)
    }

    /// `()`, from its two brackets.
    pub fn unit(from: Span, to: Span) -> Ty
        ensures { view.type_view result ≡ plain.unit_type from to }
    {
        Ty::Unit(from, to)
    }

    pub fn tuple(alloc: Global, tuple: TupleTy) -> Result<Ty, AllocError>
        ensures { IfOk result (λ t. view.type_view t ≡ view.tuple_view tuple) }
    {
        Ok(Ty::Tuple(Boxed::new(alloc, tuple)?))
    }

    pub fn named(path: Path) -> Ty
        ensures { view.type_view result ≡ plain.named_type path }
    {
        Ty::Named(path, None)
    }

    pub fn generic(alloc: Global, path: Path, args: GenericArgs) -> Result<Ty, AllocError>
        ensures { IfOk result (λ t. view.type_view t ≡ plain.generic_type path (view.args_view args)) }
    {
        Ok(Ty::Named(path, boxed(alloc, Some(args))?))
    }
}

impl TupleTy {
    pub fn new(
        from: Span,
        first: Ty,
        comma: Span,
        second: Ty,
        more: Items<Member<Ty>>,
        to: Span,
    ) -> TupleTy
        ensures { view.tuple_view result ≡ plain.tuple_type from (view.type_view first) comma (view.type_view second) (view.more_types_view more) to }
    {
        TupleTy {
            open: from,
            first,
            comma,
            second,
            more,
            close: to,
        }
    }
}

impl GenericArgs {
    pub fn new(from: Span, list: Commas<GenericArg>, to: Span) -> GenericArgs
        ensures { view.args_view result ≡ plain.angle_args from (view.arg_view list.first) (view.more_args_view list.more) to }
    {
        GenericArgs {
            open: from,
            list,
            close: to,
        }
    }
}

impl GenericArg {
    pub fn ty(ty: Ty) -> GenericArg
        ensures { view.arg_view result ≡ plain.type_arg (view.type_view ty) }
    {
        GenericArg::Ty(ty)
    }

    pub fn number(number: SignedNumber) -> GenericArg
        ensures { view.arg_view result ≡ plain.number_arg number }
    {
        GenericArg::Number(number)
    }
}
