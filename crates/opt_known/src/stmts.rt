//! Statements, walked in their order with what is known at each place.

ghost use Rattle.std.specs.Prelude.{◌≡◌, ◌==◌, IfOk, OnOk, if◌then◌else◌};
ghost use Rattle.unit_ir.specs.ExprView.{expr_view};
ghost use Rattle.unit_ir.specs.StmtView.{stmt_view, stmts_view};
ghost use Rattle.unit_ir.specs.Stmts as shape;
ghost use Rattle.opt_slots.specs.Slots.{span, also};
ghost use Rattle.opt_slots.specs.Writes.{stmts_writes};
ghost use Rattle.opt_known.specs.Facts.{forget, learn};
ghost use Rattle.opt_known.specs.Known as plain;
ghost use Rattle.opt_known.specs.Walked.{facts_of};

use crate::exprs::known_expr;
use crate::facts::Facts;
use opt_slots::{SlotSet, last_first, note_expr_writes, note_writes};
use sqlite_items::Items;
use std::alloc::{AllocError, Global};
use unit_ir::{IrExpr, IrStmt};

/// The statements of a list, from the first on, where this is known before them.
#[cycle(known)]
pub(crate) fn known_stmts(
    alloc: Global,
    list: Items<IrStmt>,
    facts: Facts,
) -> Result<Items<IrStmt>, AllocError>
    ensures { IfOk result (λ r. stmts_view r ≡ plain.known_stmts (facts_of facts) (stmts_view list)) }
{
    let mut facts = facts;
    let mut rest = last_first(alloc, list)?;
    let mut known = Vec::with_capacity(alloc, rest.len())?;
    while let Some(stmt) = rest.pop() {
        known.push(known_stmt(alloc, stmt, &mut facts)?)?;
    }
    Ok(Items::from_vec(known))
}

#[cycle(known)]
fn known_stmt(alloc: Global, stmt: IrStmt, facts: &mut Facts) -> Result<IrStmt, AllocError>
    ensures stmt { IfOk result (λ r. stmt_view r ≡ plain.known_stmt (facts_of facts.old) (stmt_view stmt)) }
    ensures facts { OnOk result (facts_of facts.new ≡ plain.after_stmt (facts_of facts.old) (stmt_view stmt)) }
{
    match stmt {
        IrStmt::Store(first, count, e) => {
            let e = known_expr(alloc, e, facts)?;
            Ok(stored(first, count, e, facts)?)
        }
        IrStmt::If(e, a, b) => {
            let e = known_expr(alloc, e, facts)?;
            Ok(known_if(alloc, e, a, b, facts)?)
        }
        IrStmt::While(e, a) => Ok(known_while(alloc, e, a, facts)?),
        IrStmt::Return(e) => {
            let e = known_expr(alloc, e, facts)?;
            Ok(IrStmt::return_stmt(e))
        }
        IrStmt::Print(e) => {
            let e = known_expr(alloc, e, facts)?;
            Ok(IrStmt::print_stmt(e))
        }
        IrStmt::Eval(e, count) => {
            let e = known_expr(alloc, e, facts)?;
            Ok(IrStmt::eval(e, count))
        }
    }
}

// A Store of a value that was walked. Of one word something may be learned.
fn stored(first: u8, count: u8, e: IrExpr, facts: &mut Facts) -> Result<IrStmt, AllocError>
    ensures stmt { IfOk result (λ r. stmt_view r ≡ shape.store first count (expr_view e)) }
    ensures facts { OnOk result (facts_of facts.new ≡ (if count == 1 then learn first (expr_view e) (forget (span first count) (facts_of facts.old)) else forget (span first count) (facts_of facts.old))) }
{
    facts.put_row(first, count)?;
    if count == 1 {
        facts.learn(first, &e)?;
        return Ok(IrStmt::store(first, count, e));
    }
    Ok(IrStmt::store(first, count, e))
}

// An If whose condition was walked.
#[cycle(known)]
fn known_if(
    alloc: Global,
    e: IrExpr,
    a: Items<IrStmt>,
    b: Items<IrStmt>,
    facts: &mut Facts,
) -> Result<IrStmt, AllocError>
    ensures stmt { IfOk result (λ r. stmt_view r ≡ shape.fork (expr_view e) (plain.known_stmts (facts_of facts.old) (stmts_view a)) (plain.known_stmts (facts_of facts.old) (stmts_view b))) }
    ensures facts { OnOk result (facts_of facts.new ≡ forget (also (stmts_writes (stmts_view a)) (stmts_writes (stmts_view b))) (facts_of facts.old)) }
{
    let mut written = SlotSet::empty();
    note_writes(a.as_slice(), &mut written);
    note_writes(b.as_slice(), &mut written);
    let then = known_stmts(alloc, a, facts.copied(alloc)?)?;
    let other = known_stmts(alloc, b, facts.copied(alloc)?)?;
    facts.put_all(&written)?;
    Ok(IrStmt::if_stmt(e, then, other))
}

#[cycle(known)]
fn known_while(
    alloc: Global,
    e: IrExpr,
    a: Items<IrStmt>,
    facts: &mut Facts,
) -> Result<IrStmt, AllocError>
    ensures stmt { IfOk result (λ r. stmt_view r ≡ plain.known_stmt (facts_of facts.old) (shape.loop (expr_view e) (stmts_view a))) }
    ensures facts { OnOk result (facts_of facts.new ≡ plain.at_loop (facts_of facts.old) (expr_view e) (stmts_view a)) }
{
    let mut written = SlotSet::empty();
    note_expr_writes(&e, &mut written);
    note_writes(a.as_slice(), &mut written);
    facts.put_all(&written)?;
    let mut here = facts.copied(alloc)?;
    let e = known_expr(alloc, e, &mut here)?;
    let a = known_stmts(alloc, a, here)?;
    Ok(IrStmt::while_stmt(e, a))
}
