//! Statements: what a function does with words.

ghost use Rattle.std.specs.Prelude.{◌≡◌};
ghost use Rattle.unit_ir.specs.Stmts as plain;
ghost use Rattle.unit_ir.specs.ExprView.{expr_view};
ghost use Rattle.unit_ir.specs.StmtView.{stmt_view, stmts_view};

use crate::IrExpr;
use sqlite_items::Items;

/// A statement.
#[derive(Drop)]
pub enum IrStmt {
    /// Puts so many words into slots from this one on.
    Store(u8, u8, IrExpr),
    If(IrExpr, Items<IrStmt>, Items<IrStmt>),
    While(IrExpr, Items<IrStmt>),
    Return(IrExpr),
    Print(IrExpr),
    /// Computes so many words and drops them.
    Eval(IrExpr, u8),
}

impl IrStmt {
    /// Puts the `count` words of `value` into slots from `first` on.
    pub fn store(first: u8, count: u8, value: IrExpr) -> IrStmt
        ensures { stmt_view result ≡ plain.store first count (expr_view value) }
    {
        IrStmt::Store(first, count, value)
    }

    pub fn if_stmt(test: IrExpr, then: Items<IrStmt>, other: Items<IrStmt>) -> IrStmt
        ensures { stmt_view result ≡ plain.fork (expr_view test) (stmts_view then) (stmts_view other) }
    {
        IrStmt::If(test, then, other)
    }

    pub fn while_stmt(test: IrExpr, body: Items<IrStmt>) -> IrStmt
        ensures { stmt_view result ≡ plain.loop (expr_view test) (stmts_view body) }
    {
        IrStmt::While(test, body)
    }

    pub fn return_stmt(value: IrExpr) -> IrStmt
        ensures { stmt_view result ≡ plain.give (expr_view value) }
    {
        IrStmt::Return(value)
    }

    pub fn print_stmt(value: IrExpr) -> IrStmt
        ensures { stmt_view result ≡ plain.print (expr_view value) }
    {
        IrStmt::Print(value)
    }

    /// Computes the `count` words of `value` and drops them.
    pub fn eval(value: IrExpr, count: u8) -> IrStmt
        ensures { stmt_view result ≡ plain.eval (expr_view value) count }
    {
        IrStmt::Eval(value, count)
    }
}
