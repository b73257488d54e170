//! Statements of a unit's input.
ghost use Rattle.std.specs.Prelude.{◌≡◌};
ghost use Rattle.unit_input.specs.Stmts as plain;
ghost use Rattle.unit_input.specs.InputView.{expr_view, stmt_view, stmts_view};

use crate::UnitExpr;
use sqlite_items::Items;

/// A statement.
#[derive(Drop)]
pub enum UnitStmt {
    /// Gives a local its first value.
    Let(u32, UnitExpr),
    /// Sets so many words of a local, from this offset on.
    Assign(u32, u16, u16, UnitExpr),
    /// The second block is that after `else`, and empty without one.
    If(UnitExpr, Items<UnitStmt>, Items<UnitStmt>),
    While(UnitExpr, Items<UnitStmt>),
    /// Without a value in the source, the value is the empty tuple.
    Return(UnitExpr),
    Print(UnitExpr),
    /// A static assertion.
    Assert(UnitExpr),
    Eval(UnitExpr),
}

impl UnitStmt {
    pub fn let_stmt(local: u32, value: UnitExpr) -> UnitStmt
        ensures { stmt_view result ≡ plain.declare local (expr_view value) }
    {
        UnitStmt::Let(local, value)
    }

    pub fn assign(local: u32, offset: u16, width: u16, value: UnitExpr) -> UnitStmt
        ensures { stmt_view result ≡ plain.assign local offset width (expr_view value) }
    {
        UnitStmt::Assign(local, offset, width, value)
    }

    pub fn if_stmt(test: UnitExpr, then: Items<UnitStmt>, other: Items<UnitStmt>) -> UnitStmt
        ensures { stmt_view result ≡ plain.fork (expr_view test) (stmts_view then) (stmts_view other) }
    {
        UnitStmt::If(test, then, other)
    }

    pub fn while_stmt(test: UnitExpr, body: Items<UnitStmt>) -> UnitStmt
        ensures { stmt_view result ≡ plain.loop (expr_view test) (stmts_view body) }
    {
        UnitStmt::While(test, body)
    }

    pub fn return_stmt(value: UnitExpr) -> UnitStmt
        ensures { stmt_view result ≡ plain.give (expr_view value) }
    {
        UnitStmt::Return(value)
    }

    pub fn print_stmt(value: UnitExpr) -> UnitStmt
        ensures { stmt_view result ≡ plain.print (expr_view value) }
    {
        UnitStmt::Print(value)
    }

    pub fn assert_stmt(value: UnitExpr) -> UnitStmt
        ensures { stmt_view result ≡ plain.assert (expr_view value) }
    {
        UnitStmt::Assert(value)
    }

    pub fn eval(value: UnitExpr) -> UnitStmt
        ensures { stmt_view result ≡ plain.eval (expr_view value) }
    {
        UnitStmt::Eval(value)
    }
}
