//! Where expressions and types begin.

ghost use Rattle.std.specs.Prelude.{◌≡◌};
ghost use Rattle.lar_tree.specs.ExprView.{expr_view};
ghost use Rattle.lar_tree.specs.TypeView.{type_view};
ghost use Rattle.lar_tree.specs.Firsts.{expr_start, type_start};

use crate::{Expr, Span, Ty};

impl Expr {
    /// Where its first token stands.
    pub fn start(&self) -> Span
        ensures { result ≡ expr_start (expr_view self.now) }
    {
        match self {
            Expr::Number(_, at) => *at,
            Expr::True(at) => *at,
            Expr::False(at) => *at,
            Expr::Paren(from, _, _) => *from,
            Expr::New(made) => made.get().keyword,
            Expr::Path(path) => path.first.span,
            Expr::Call(call) => call.get().path.first.span,
            Expr::Field(inner, _, _) => inner.get().start(),
            Expr::Unary(_, at, _) => *at,
            Expr::Binary(left, _, _, _) => left.get().start(),
        }
    }
}

impl Ty {
    /// Where its first token stands.
    pub fn start(&self) -> Span
        ensures { result ≡ type_start (type_view self.now) }
    {
        match self {
            Ty::Int(at) => *at,
            Ty::Bool(at) => *at,
            Ty::Unit(from, _) => *from,
            Ty::Tuple(tuple) => tuple.get().open,
            Ty::Named(path, _) => path.first.span,
        }
    }
}
