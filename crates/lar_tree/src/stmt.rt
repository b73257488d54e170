ghost use Rattle.std.specs.Prelude.{◌≡◌, IfOk, option_map};
ghost use Rattle.lar_tree.specs.ExprView.{expr_view};
ghost use Rattle.lar_tree.specs.Stmts as plain;
ghost use Rattle.lar_tree.specs.StmtView as view;

use crate::optional::boxed;
use crate::{Expr, Name, Span, Ty};
use sqlite_items::{Boxed, Items};
use std::alloc::{AllocError, Global};

#[cycle(stmt)]
#[derive(Drop)]
pub enum Stmt {
    Let(Boxed<Let>),
    If(Boxed<If>),
    While(Span, Expr, Block),
    Return(Span, Option<Expr>, Span),
    Print(Asked),
    StaticAssert(Asked),
    /// An expression, and what it is set to.
    Expr(Expr, Option<Boxed<Setting>>, Span),
}

#[derive(Drop)]
pub struct Let {
    pub keyword: Span,
    pub name: Name,
    pub colon: Span,
    pub ty: Ty,
    pub assign: Span,
    pub value: Expr,
    pub semicolon: Span,
}

/// The expression in brackets behind `print` or `static_assert`.
#[derive(Drop)]
pub struct Asked {
    pub keyword: Span,
    pub open: Span,
    pub value: Expr,
    pub close: Span,
    pub semicolon: Span,
}

/// What stands behind the `=` of a statement.
#[derive(Drop)]
pub struct Setting {
    pub assign: Span,
    pub value: Expr,
}

#[cycle(stmt)]
#[derive(Drop)]
pub struct Block {
    pub open: Span,
    pub stmts: Items<Stmt>,
    pub close: Span,
}

#[cycle(stmt)]
#[derive(Drop)]
pub struct If {
    pub keyword: Span,
    pub test: Expr,
    pub then: Block,
    pub other: Option<Boxed<Else>>,
}

#[cycle(stmt)]
#[derive(Drop)]
pub enum Else {
    Last(Span, Block),
    Next(Span, If),
}

impl Stmt {
    pub fn let_stmt(alloc: Global, local: Let) -> Result<Stmt, AllocError>
        ensures { IfOk result (λ s. view.stmt_view s ≡ plain.let_stmt (view.let_view local)) }
    {
        Ok(Stmt::Let(Boxed::new(alloc, local)?))
    }

    pub fn if_stmt(alloc: Global, fork: If) -> Result<Stmt, AllocError>
        ensures { IfOk result (λ s. view.stmt_view s ≡ plain.if_stmt (view.if_view fork)) }
    {
        Ok(Stmt::If(Boxed::new(alloc, fork)?))
    }

    pub fn while_stmt(keyword: Span, test: Expr, body: Block) -> Stmt
        ensures { view.stmt_view result ≡ plain.while_stmt keyword (expr_view test) (view.block_view body) }
    {
        Stmt::While(keyword, test, body)
    }

    pub fn return_stmt(keyword: Span, value: Option<Expr>, semicolon: Span) -> Stmt
        ensures { view.stmt_view result ≡ plain.return_stmt keyword (option_map expr_view value) semicolon }
    {
        Stmt::Return(keyword, value, semicolon)
    }

    pub fn print_stmt(asked: Asked) -> Stmt
        ensures { view.stmt_view result ≡ plain.print_stmt (view.asked_view asked) }
    {
        Stmt::Print(asked)
    }

    pub fn assert_stmt(asked: Asked) -> Stmt
        ensures { view.stmt_view result ≡ plain.assert_stmt (view.asked_view asked) }
    {
        Stmt::StaticAssert(asked)
    }

    pub fn expr_stmt(
        alloc: Global,
        value: Expr,
        setting: Option<Setting>,
        semicolon: Span,
    ) -> Result<Stmt, AllocError>
        ensures { IfOk result (λ s. view.stmt_view s ≡ plain.expr_stmt (expr_view value) (option_map view.setting_view setting) semicolon) }
    {
        Ok(Stmt::Expr(value, boxed(alloc, setting)?, semicolon))
    }
}

impl Block {
    pub fn new(from: Span, stmts: Items<Stmt>, to: Span) -> Block
        ensures { view.block_view result ≡ plain.block from (view.stmts_view stmts) to }
    {
        Block {
            open: from,
            stmts,
            close: to,
        }
    }
}

impl If {
    pub fn new(
        alloc: Global,
        keyword: Span,
        test: Expr,
        then: Block,
        other: Option<Else>,
    ) -> Result<If, AllocError>
        ensures { IfOk result (λ f. view.if_view f ≡ plain.fork keyword (expr_view test) (view.block_view then) (view.else_of (option_map view.else_view other))) }
    {
        Ok(If {
            keyword,
            test,
            then,
            other: boxed(alloc, other)?,
        })
    }
}

impl Else {
    /// `else` and the block that ends the chain.
    pub fn last(keyword: Span, body: Block) -> Else
        ensures { view.else_view result ≡ plain.else_block keyword (view.block_view body) }
    {
        Else::Last(keyword, body)
    }

    /// `else` and a further `if`.
    pub fn next(keyword: Span, fork: If) -> Else
        ensures { view.else_view result ≡ plain.else_if keyword (view.if_view fork) }
    {
        Else::Next(keyword, fork)
    }
}
