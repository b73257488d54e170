//! The walk over statements and blocks.
ghost use Rattle.std.specs.Prelude.{◌≡◌, IfOk, OnOk};
ghost use Rattle.type_table.specs.Rows.{Keeps};
ghost use Rattle.lar_tree.specs.ExprView.{expr_view};
ghost use Rattle.lar_tree.specs.Stmts.{while_stmt};
ghost use Rattle.lar_tree.specs.StmtView.{stmt_view, block_view, stmts_view, if_view, else_view};
ghost use Rattle.lar_rules.specs.Fault.{least};
ghost use Rattle.lar_rules.specs.Bodies.{stmt_done, block_done, stmts_done, if_done, else_done};
ghost use Rattle.lar_judge.specs.Here.{IsHere};
ghost use Rattle.lar_judge.specs.Known.{IfWithin};
ghost use Rattle.lar_stmts.specs.States.{body_in, state_in, StateWithin, StateIs, IsLonger};
ghost use Rattle.lar_stmts.specs.Stmts.{StmtIs, StmtsIs};

use crate::made::{fork, only, while_loop, with_more};
use lar_judge::Site;
use lar_source::Span;
use lar_stmts::{
    Context, State, assert_done, condition, expr_done, let_done, print_done, return_done,
};
use lar_told::First;
use lar_tree::{Block, Else, Expr, If, Stmt};
use lar_typed::TypedStmt;
use sqlite_items::Items;
use std::alloc::{AllocError, Global};
use type_table::Types;

#[cycle(walking)]
fn stmt_walked<'a, S: Site>(
    stmt: &'a Stmt,
    alloc: Global,
    types: &mut Types,
    first: &mut First,
    context: &Context<'_, S>,
    state: &mut State<'a>,
) -> Result<Option<TypedStmt>, AllocError>
    requires here { IsHere context.now.here (S.site context.now.site.now) }
    requires stands { S.stands context.now.site.now types.old }
    requires state { StateWithin types.old state.old }
    requires outcome { IfWithin types.old context.now.outcome }
    ensures kept { Keeps types.old types.new }
    ensures typed { IfOk result (λ r. StmtIs types.new r (stmt_done (body_in types.old (S.site context.now.site.now) context.now.outcome) (state_in types.old state.old) (stmt_view stmt.now)).typed) }
    ensures after { OnOk result (StateIs types.new state.new (stmt_done (body_in types.old (S.site context.now.site.now) context.now.outcome) (state_in types.old state.old) (stmt_view stmt.now)).after) }
    ensures scope { OnOk result (IsLonger state.old.locals.locals.items state.new.locals.locals.items) }
    ensures told { OnOk result (first.new ≡ least first.old (stmt_done (body_in types.old (S.site context.now.site.now) context.now.outcome) (state_in types.old state.old) (stmt_view stmt.now)).faults) }
{
    match stmt {
        Stmt::Let(local) => let_done(alloc, types, first, context, state, local.get()),
        Stmt::If(fork) => if_walked(fork.get(), alloc, types, first, context, state),
        Stmt::While(at, test, body) => {
            while_walked(body, *at, test, alloc, types, first, context, state)
        }
        Stmt::Return(at, value, _) => return_done(alloc, types, first, context, state, *at, value),
        Stmt::Print(asked) => print_done(alloc, types, first, context, state, asked),
        Stmt::StaticAssert(asked) => assert_done(alloc, types, first, context, state, asked),
        Stmt::Expr(e, setting, _) => expr_done(alloc, types, first, context, state, e, setting),
    }
}

#[cycle(walking)]
fn while_walked<'a, S: Site>(
    body: &'a Block,
    at: Span,
    test: &Expr,
    alloc: Global,
    types: &mut Types,
    first: &mut First,
    context: &Context<'_, S>,
    state: &mut State<'a>,
) -> Result<Option<TypedStmt>, AllocError>
    requires here { IsHere context.now.here (S.site context.now.site.now) }
    requires stands { S.stands context.now.site.now types.old }
    requires state { StateWithin types.old state.old }
    requires outcome { IfWithin types.old context.now.outcome }
    ensures kept { Keeps types.old types.new }
    ensures typed { IfOk result (λ r. StmtIs types.new r (stmt_done (body_in types.old (S.site context.now.site.now) context.now.outcome) (state_in types.old state.old) (while_stmt at (expr_view test.now) (block_view body.now))).typed) }
    ensures after { OnOk result (StateIs types.new state.new (stmt_done (body_in types.old (S.site context.now.site.now) context.now.outcome) (state_in types.old state.old) (while_stmt at (expr_view test.now) (block_view body.now))).after) }
    ensures scope { OnOk result (IsLonger state.old.locals.locals.items state.new.locals.locals.items) }
    ensures told { OnOk result (first.new ≡ least first.old (stmt_done (body_in types.old (S.site context.now.site.now) context.now.outcome) (state_in types.old state.old) (while_stmt at (expr_view test.now) (block_view body.now))).faults) }
{
    let test = condition(alloc, types, first, context, state, test)?;
    let body = block_walked(body, alloc, types, first, context, state)?;
    Ok(while_loop(test, body))
}

/// The statements of a block, whose locals are in scope no longer.
#[cycle(walking)]
pub(crate) fn block_walked<'a, S: Site>(
    block: &'a Block,
    alloc: Global,
    types: &mut Types,
    first: &mut First,
    context: &Context<'_, S>,
    state: &mut State<'a>,
) -> Result<Option<Items<TypedStmt>>, AllocError>
    requires here { IsHere context.now.here (S.site context.now.site.now) }
    requires stands { S.stands context.now.site.now types.old }
    requires state { StateWithin types.old state.old }
    requires outcome { IfWithin types.old context.now.outcome }
    ensures kept { Keeps types.old types.new }
    ensures typed { IfOk result (λ r. StmtsIs types.new r (block_done (body_in types.old (S.site context.now.site.now) context.now.outcome) (state_in types.old state.old) (block_view block.now)).typed) }
    ensures after { OnOk result (StateIs types.new state.new (block_done (body_in types.old (S.site context.now.site.now) context.now.outcome) (state_in types.old state.old) (block_view block.now)).after) }
    ensures scope { OnOk result (IsLonger state.old.locals.locals.items state.new.locals.locals.items) }
    ensures told { OnOk result (first.new ≡ least first.old (block_done (body_in types.old (S.site context.now.site.now) context.now.outcome) (state_in types.old state.old) (block_view block.now)).faults) }
{
    let outside = state.locals.len();
    let done = stmts_walked(block.stmts.as_slice(), alloc, types, first, context, state)?;
    state.locals.leave(outside);
    Ok(done)
}

#[cycle(walking)]
fn stmts_walked<'a, S: Site>(
    stmts: &'a [Stmt],
    alloc: Global,
    types: &mut Types,
    first: &mut First,
    context: &Context<'_, S>,
    state: &mut State<'a>,
) -> Result<Option<Items<TypedStmt>>, AllocError>
    requires here { IsHere context.now.here (S.site context.now.site.now) }
    requires stands { S.stands context.now.site.now types.old }
    requires state { StateWithin types.old state.old }
    requires outcome { IfWithin types.old context.now.outcome }
    ensures kept { Keeps types.old types.new }
    ensures typed { IfOk result (λ r. StmtsIs types.new r (stmts_done (body_in types.old (S.site context.now.site.now) context.now.outcome) (state_in types.old state.old) (stmts_view stmts.now)).typed) }
    ensures after { OnOk result (StateIs types.new state.new (stmts_done (body_in types.old (S.site context.now.site.now) context.now.outcome) (state_in types.old state.old) (stmts_view stmts.now)).after) }
    ensures scope { OnOk result (IsLonger state.old.locals.locals.items state.new.locals.locals.items) }
    ensures told { OnOk result (first.new ≡ least first.old (stmts_done (body_in types.old (S.site context.now.site.now) context.now.outcome) (state_in types.old state.old) (stmts_view stmts.now)).faults) }
{
    let mut done = Some(Items::new(alloc));
    for stmt in stmts {
        let one = stmt_walked(stmt, alloc, types, first, context, state)?;
        done = with_more(done, one)?;
    }
    Ok(done)
}

#[cycle(walking)]
fn if_walked<'a, S: Site>(
    it: &'a If,
    alloc: Global,
    types: &mut Types,
    first: &mut First,
    context: &Context<'_, S>,
    state: &mut State<'a>,
) -> Result<Option<TypedStmt>, AllocError>
    requires here { IsHere context.now.here (S.site context.now.site.now) }
    requires stands { S.stands context.now.site.now types.old }
    requires state { StateWithin types.old state.old }
    requires outcome { IfWithin types.old context.now.outcome }
    ensures kept { Keeps types.old types.new }
    ensures typed { IfOk result (λ r. StmtIs types.new r (if_done (body_in types.old (S.site context.now.site.now) context.now.outcome) (state_in types.old state.old) (if_view it.now)).typed) }
    ensures after { OnOk result (StateIs types.new state.new (if_done (body_in types.old (S.site context.now.site.now) context.now.outcome) (state_in types.old state.old) (if_view it.now)).after) }
    ensures scope { OnOk result (IsLonger state.old.locals.locals.items state.new.locals.locals.items) }
    ensures told { OnOk result (first.new ≡ least first.old (if_done (body_in types.old (S.site context.now.site.now) context.now.outcome) (state_in types.old state.old) (if_view it.now)).faults) }
{
    let test = condition(alloc, types, first, context, state, &it.test)?;
    let then = block_walked(&it.then, alloc, types, first, context, state)?;
    match &it.other {
        None => Ok(fork(test, then, Some(Items::new(alloc)))),
        Some(other) => {
            let other = else_walked(other.get(), alloc, types, first, context, state)?;
            Ok(fork(test, then, other))
        }
    }
}

#[cycle(walking)]
fn else_walked<'a, S: Site>(
    other: &'a Else,
    alloc: Global,
    types: &mut Types,
    first: &mut First,
    context: &Context<'_, S>,
    state: &mut State<'a>,
) -> Result<Option<Items<TypedStmt>>, AllocError>
    requires here { IsHere context.now.here (S.site context.now.site.now) }
    requires stands { S.stands context.now.site.now types.old }
    requires state { StateWithin types.old state.old }
    requires outcome { IfWithin types.old context.now.outcome }
    ensures kept { Keeps types.old types.new }
    ensures typed { IfOk result (λ r. StmtsIs types.new r (else_done (body_in types.old (S.site context.now.site.now) context.now.outcome) (state_in types.old state.old) (else_view other.now)).typed) }
    ensures after { OnOk result (StateIs types.new state.new (else_done (body_in types.old (S.site context.now.site.now) context.now.outcome) (state_in types.old state.old) (else_view other.now)).after) }
    ensures scope { OnOk result (IsLonger state.old.locals.locals.items state.new.locals.locals.items) }
    ensures told { OnOk result (first.new ≡ least first.old (else_done (body_in types.old (S.site context.now.site.now) context.now.outcome) (state_in types.old state.old) (else_view other.now)).faults) }
{
    match other {
        Else::Last(_, body) => block_walked(body, alloc, types, first, context, state),
        Else::Next(_, it) => {
            let stmt = if_walked(it, alloc, types, first, context, state)?;
            only(alloc, stmt)
        }
    }
}
