ghost use Rattle.std.specs.Prelude.{◌≡◌, IfOk, option_map};
ghost use Rattle.lar_tree.specs.TypeView.{args_view};
ghost use Rattle.lar_tree.specs.Exprs as plain;
ghost use Rattle.lar_tree.specs.ExprView as view;

use crate::optional::boxed;
use crate::{Commas, GenericArgs, Name, Path, Sign, Span};
use sqlite_items::{Boxed, Items};
use std::alloc::{AllocError, Global};

/// A sign before its operand.
#[derive(Clone, Copy, Debug, PartialEq, Eq)]
pub enum Unary {
    Minus,
    Not,
}

/// A sign between its operands.
#[derive(Clone, Copy, Debug, PartialEq, Eq)]
pub enum Binary {
    Or,
    And,
    Equal,
    NotEqual,
    Less,
    AtMost,
    Greater,
    AtLeast,
    Plus,
    Minus,
    Star,
    Slash,
    Percent,
}

impl Unary {
    pub fn sign(self) -> Sign
        ensures { result ≡ plain.unary_sign self }
    {
        match self {
            Unary::Minus => Sign::Minus,
            Unary::Not => Sign::Not,
        }
    }
}

impl Binary {
    pub fn sign(self) -> Sign
        ensures { result ≡ plain.binary_sign self }
    {
        match self {
            Binary::Or => Sign::Or,
            Binary::And => Sign::And,
            Binary::Equal => Sign::Equal,
            Binary::NotEqual => Sign::NotEqual,
            Binary::Less => Sign::Less,
            Binary::AtMost => Sign::AtMost,
            Binary::Greater => Sign::Greater,
            Binary::AtLeast => Sign::AtLeast,
            Binary::Plus => Sign::Plus,
            Binary::Minus => Sign::Minus,
            Binary::Star => Sign::Star,
            Binary::Slash => Sign::Slash,
            Binary::Percent => Sign::Percent,
        }
    }

    /// How loosely it binds: 2 for products, 3 for sums, 4 for comparisons, 5 for `&&` and 6 for `||`.
    pub fn height(self) -> u8
        ensures { result ≡ plain.height_of self }
    {
        match self {
            Binary::Star | Binary::Slash | Binary::Percent => 2,
            Binary::Plus | Binary::Minus => 3,
            Binary::And => 5,
            Binary::Or => 6,
            _ => 4,
        }
    }
}

/// What stands behind a dot: a field's name, or the number of a tuple's part.
#[derive(Drop)]
pub enum Selector {
    Name(Name),
    Number(i64, Span),
}

/// Generics in an expression, with the `::` before them.
#[derive(Drop)]
pub struct Turbofish {
    pub sep: Span,
    pub args: Boxed<GenericArgs>,
}

#[cycle(expr)]
#[derive(Drop)]
pub enum Expr {
    Number(i64, Span),
    True(Span),
    False(Span),
    /// A bracket, a tuple or the empty tuple.
    Paren(Span, Option<Boxed<Commas<Expr>>>, Span),
    New(Boxed<New>),
    Path(Path),
    Call(Boxed<Call>),
    Field(Boxed<Expr>, Span, Selector),
    Unary(Unary, Span, Boxed<Expr>),
    Binary(Boxed<Expr>, Binary, Span, Boxed<Expr>),
}

/// A struct made from its fields.
#[cycle(expr)]
#[derive(Drop)]
pub struct New {
    pub keyword: Span,
    pub path: Path,
    pub generics: Option<Turbofish>,
    pub open: Span,
    pub inits: Option<Commas<Init>>,
    pub close: Span,
}

/// A field and what it is set to.
#[cycle(expr)]
#[derive(Drop)]
pub struct Init {
    pub name: Name,
    pub colon: Span,
    pub value: Expr,
}

#[cycle(expr)]
#[derive(Drop)]
pub struct Call {
    pub path: Path,
    pub generics: Option<Turbofish>,
    pub open: Span,
    pub args: Option<Commas<Expr>>,
    pub close: Span,
}

impl Turbofish {
    pub fn new(alloc: Global, sep: Span, args: GenericArgs) -> Result<Turbofish, AllocError>
        ensures { IfOk result (λ t. view.turbofish_view t ≡ record { 0 = sep; 1 = args_view args }) }
    {
        Ok(Turbofish {
            sep,
            args: Boxed::new(alloc, args)?,
        })
    }
}

impl Expr {
    pub fn number(value: i64, at: Span) -> Expr
        ensures { view.expr_view result ≡ plain.number value at }
    {
        Expr::Number(value, at)
    }

    pub fn truth(at: Span) -> Expr
        ensures { view.expr_view result ≡ plain.truth at }
    {
        Expr::True(at)
    }

    pub fn untruth(at: Span) -> Expr
        ensures { view.expr_view result ≡ plain.untruth at }
    {
        Expr::False(at)
    }

    /// A bracket, a tuple or, without a list, the empty tuple.
    pub fn paren(
        alloc: Global,
        from: Span,
        list: Option<Commas<Expr>>,
        to: Span,
    ) -> Result<Expr, AllocError>
        ensures { IfOk result (λ e. view.expr_view e ≡ plain.paren from (view.parts_view list) to) }
    {
        Ok(Expr::Paren(from, boxed(alloc, list)?, to))
    }

    pub fn new_struct(alloc: Global, made: New) -> Result<Expr, AllocError>
        ensures { IfOk result (λ e. view.expr_view e ≡ view.new_view made) }
    {
        Ok(Expr::New(Boxed::new(alloc, made)?))
    }

    pub fn path(path: Path) -> Expr
        ensures { view.expr_view result ≡ plain.path path }
    {
        Expr::Path(path)
    }

    pub fn call(alloc: Global, call: Call) -> Result<Expr, AllocError>
        ensures { IfOk result (λ e. view.expr_view e ≡ view.call_view call) }
    {
        Ok(Expr::Call(Boxed::new(alloc, call)?))
    }

    pub fn field(
        alloc: Global,
        inner: Expr,
        dot: Span,
        selector: Selector,
    ) -> Result<Expr, AllocError>
        ensures { IfOk result (λ e. view.expr_view e ≡ plain.field (view.expr_view inner) dot selector) }
    {
        Ok(Expr::Field(Boxed::new(alloc, inner)?, dot, selector))
    }

    pub fn unary(alloc: Global, op: Unary, at: Span, inner: Expr) -> Result<Expr, AllocError>
        ensures { IfOk result (λ e. view.expr_view e ≡ plain.unary_of op at (view.expr_view inner)) }
    {
        Ok(Expr::Unary(op, at, Boxed::new(alloc, inner)?))
    }

    pub fn binary(
        alloc: Global,
        left: Expr,
        op: Binary,
        at: Span,
        right: Expr,
    ) -> Result<Expr, AllocError>
        ensures { IfOk result (λ e. view.expr_view e ≡ plain.binary_of (view.expr_view left) op at (view.expr_view right)) }
    {
        Ok(Expr::Binary(Boxed::new(alloc, left)?, op, at, Boxed::new(alloc, right)?))
    }
}

impl New {
    pub fn new(
        keyword: Span,
        path: Path,
        generics: Option<Turbofish>,
        from: Span,
        inits: Option<Commas<Init>>,
        to: Span,
    ) -> New
        ensures { view.new_view result ≡ plain.new_struct keyword path (option_map view.turbofish_view generics) from (view.inits_view inits) to }
    {
        New {
            keyword,
            path,
            generics,
            open: from,
            inits,
            close: to,
        }
    }
}

impl Call {
    pub fn new(
        path: Path,
        generics: Option<Turbofish>,
        from: Span,
        args: Option<Commas<Expr>>,
        to: Span,
    ) -> Call
        ensures { view.call_view result ≡ plain.call path (option_map view.turbofish_view generics) from (view.parts_view args) to }
    {
        Call {
            path,
            generics,
            open: from,
            args,
            close: to,
        }
    }
}

impl Init {
    pub fn new(name: Name, colon: Span, value: Expr) -> Init
        ensures { view.init_view result ≡ record { 0 = name; 1 = colon; 2 = view.expr_view value } }
    {
        Init { name, colon, value }
    }
}
