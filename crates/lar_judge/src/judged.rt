//! What is known of an expression.
use lar_source::Span;
use lar_typed::TypedExpr;

/// Where an expression begins, and the expression with its types, where there is no fault in it.
#[derive(Drop)]
pub struct Judged {
    pub at: Span,
    pub typed: Option<TypedExpr>,
}
