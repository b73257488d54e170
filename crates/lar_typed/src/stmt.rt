//! Statements whose names are numbers.
ghost use Rattle.std.specs.Prelude.{◌≡◌, map};
ghost use Rattle.lar_typed.specs.ExprView.{expr_view};
ghost use Rattle.lar_typed.specs.Stmts as plain;
ghost use Rattle.lar_typed.specs.StmtView as view;

use crate::TypedExpr;
use lar_source::Span;
use sqlite_items::Items;

/// A step from a place to a part of it.
#[derive(Clone, Copy, Debug, PartialEq, Eq)]
pub struct Step {
    /// The part of a tuple or the field of a struct, by its place.
    pub part: usize,
    /// The type of that part, as the number of a row.
    pub of: usize,
}

/// A statement.
#[derive(Drop)]
pub enum TypedStmt {
    /// The local that it makes, by its number, and the value.
    Let(usize, TypedExpr),
    /// A local, the steps to a part of it, and the value.
    Assign(usize, Items<Step>, TypedExpr),
    /// The condition, and the statements of both branches. Without `else` the second has none; an `if` after `else` is its only one.
    If(TypedExpr, Items<TypedStmt>, Items<TypedStmt>),
    While(TypedExpr, Items<TypedStmt>),
    Return(Option<TypedExpr>),
    Print(TypedExpr),
    /// The condition, and where `static_assert` stands.
    StaticAssert(TypedExpr, Span),
    Eval(TypedExpr),
}

impl TypedStmt {
    pub fn let_local(number: usize, value: TypedExpr) -> TypedStmt
        ensures { view.stmt_view result ≡ plain.let_local number (expr_view value) }
    {
        TypedStmt::Let(number, value)
    }

    pub fn assign(number: usize, steps: Items<Step>, value: TypedExpr) -> TypedStmt
        ensures { view.stmt_view result ≡ plain.assign number (map view.step_view steps) (expr_view value) }
    {
        TypedStmt::Assign(number, steps, value)
    }

    /// An `if`; without `else` the second branch is empty, and an `if` after `else` is its only statement.
    pub fn fork(test: TypedExpr, then: Items<TypedStmt>, other: Items<TypedStmt>) -> TypedStmt
        ensures { view.stmt_view result ≡ plain.fork (expr_view test) (view.stmts_view then) (view.stmts_view other) }
    {
        TypedStmt::If(test, then, other)
    }

    pub fn while_loop(test: TypedExpr, body: Items<TypedStmt>) -> TypedStmt
        ensures { view.stmt_view result ≡ plain.loop (expr_view test) (view.stmts_view body) }
    {
        TypedStmt::While(test, body)
    }

    pub fn return_nothing() -> TypedStmt
        ensures { view.stmt_view result ≡ plain.return_nothing }
    {
        TypedStmt::Return(None)
    }

    pub fn return_value(value: TypedExpr) -> TypedStmt
        ensures { view.stmt_view result ≡ plain.return_value (expr_view value) }
    {
        TypedStmt::Return(Some(value))
    }

    pub fn print(value: TypedExpr) -> TypedStmt
        ensures { view.stmt_view result ≡ plain.print (expr_view value) }
    {
        TypedStmt::Print(value)
    }

    pub fn static_assert(test: TypedExpr, at: Span) -> TypedStmt
        ensures { view.stmt_view result ≡ plain.assert (expr_view test) at }
    {
        TypedStmt::StaticAssert(test, at)
    }

    pub fn eval(value: TypedExpr) -> TypedStmt
        ensures { view.stmt_view result ≡ plain.eval (expr_view value) }
    {
        TypedStmt::Eval(value)
    }
}
