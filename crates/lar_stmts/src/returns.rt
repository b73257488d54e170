//! Whether a block returns.
ghost use Rattle.std.specs.Prelude.{◌≡◌, option_map};
ghost use Rattle.lar_tree.specs.StmtView.{stmt_view, block_view, stmts_view, if_view, else_view, else_of};
ghost use Rattle.lar_rules.specs.Bodies as rules;

use lar_tree::{Block, Else, If, Stmt};
use sqlite_items::Boxed;

#[cycle(returning)]
fn stmt_returns(stmt: &Stmt) -> bool
    ensures { result ≡ rules.stmt_returns (stmt_view stmt.now) }
{
    match stmt {
        Stmt::Return(_, _, _) => true,
        Stmt::If(fork) => if_returns(fork.get()),
        Stmt::Let(_) => false,
        Stmt::While(_, _, _) => false,
        Stmt::Print(_) => false,
        Stmt::StaticAssert(_) => false,
        Stmt::Expr(_, _, _) => false,
    }
}

#[cycle(returning)]
fn stmts_return(stmts: &[Stmt]) -> bool
    ensures { result ≡ rules.stmts_return (stmts_view stmts.now) }
{
    for stmt in stmts {
        if stmt_returns(stmt) {
            return true;
        }
    }
    false
}

/// Whether a block returns: one of its statements is `return`, or an `if` with `else` both of whose branches return.
#[cycle(returning)]
pub fn block_returns(block: &Block) -> bool
    ensures { result ≡ rules.block_returns (block_view block.now) }
{
    stmts_return(block.stmts.as_slice())
}

#[cycle(returning)]
fn if_returns(fork: &If) -> bool
    ensures { result ≡ rules.if_returns (if_view fork.now) }
{
    if block_returns(&fork.then) {
        return match &fork.other {
            None => false,
            Some(other) => else_returns(other.get()),
        };
    }
    false
}

#[cycle(returning)]
fn else_returns(other: &Else) -> bool
    ensures { result ≡ rules.else_returns (else_view other.now) }
{
    match other {
        Else::Last(_, body) => block_returns(body),
        Else::Next(_, fork) => if_returns(fork),
    }
}
