//! Expressions, walked in their order with what is known at each place.

ghost use Rattle.std.specs.Prelude.{◌≡◌, IfOk, OnOk};
ghost use Rattle.unit_ir.specs.ExprView.{expr_view, exprs_view};
ghost use Rattle.opt_slots.specs.Writes.{expr_writes, exprs_writes};
ghost use Rattle.opt_known.specs.Facts.{forget, in_place};
ghost use Rattle.opt_known.specs.Known as plain;
ghost use Rattle.opt_known.specs.Table.{fact_view};
ghost use Rattle.opt_known.specs.Walked.{facts_of};

use crate::entry::Fact;
use crate::facts::Facts;
use opt_slots::last_first;
use sqlite_items::Items;
use std::alloc::{AllocError, Global};
use unit_ir::IrExpr;

// What stands for a load of a slot of which this is known.
fn loaded(slot: u8, fact: Fact) -> IrExpr
    ensures { expr_view result ≡ in_place slot (fact_view fact) }
{
    match fact {
        Fact::Nothing => IrExpr::load(slot),
        Fact::Word(value) => IrExpr::constant(value),
        Fact::Slot(other) => IrExpr::load(other),
    }
}

/// An expression with its loads replaced where their words are known. Behind it what it put words into is forgotten.
#[cycle(known)]
pub(crate) fn known_expr(alloc: Global, e: IrExpr, facts: &mut Facts) -> Result<IrExpr, AllocError>
    ensures expr { IfOk result (λ r. expr_view r ≡ plain.known_expr (facts_of facts.old) (expr_view e)) }
    ensures facts { OnOk result (facts_of facts.new ≡ forget (expr_writes (expr_view e)) (facts_of facts.old)) }
{
    match e {
        IrExpr::Const(v) => Ok(IrExpr::Const(v)),
        IrExpr::Load(slot) => Ok(loaded(slot, facts.of(slot))),
        IrExpr::Op1(op, a) => {
            let a = known_expr(alloc, a.into_inner(), facts)?;
            Ok(IrExpr::unary(alloc, op, a)?)
        }
        IrExpr::Op2(op, a, b) => {
            let a = known_expr(alloc, a.into_inner(), facts)?;
            let b = known_expr(alloc, b.into_inner(), facts)?;
            Ok(IrExpr::binary(alloc, op, a, b)?)
        }
        IrExpr::And(a, b) => {
            let a = known_expr(alloc, a.into_inner(), facts)?;
            let b = known_expr(alloc, b.into_inner(), facts)?;
            Ok(IrExpr::and(alloc, a, b)?)
        }
        IrExpr::Or(a, b) => {
            let a = known_expr(alloc, a.into_inner(), facts)?;
            let b = known_expr(alloc, b.into_inner(), facts)?;
            Ok(IrExpr::or(alloc, a, b)?)
        }
        IrExpr::Call(function, args) => {
            let args = known_exprs(alloc, args, facts)?;
            Ok(IrExpr::call(function, args))
        }
        IrExpr::Seq(parts) => {
            let parts = known_exprs(alloc, parts, facts)?;
            Ok(IrExpr::seq(parts))
        }
        IrExpr::Bind(first, count, a, b) => {
            let a = known_expr(alloc, a.into_inner(), facts)?;
            facts.put_row(first, count)?;
            let b = known_expr(alloc, b.into_inner(), facts)?;
            Ok(IrExpr::bind(alloc, first, count, a, b)?)
        }
    }
}

// The parts from the first on.
#[cycle(known)]
fn known_exprs(
    alloc: Global,
    parts: Items<IrExpr>,
    facts: &mut Facts,
) -> Result<Items<IrExpr>, AllocError>
    ensures parts { IfOk result (λ r. exprs_view r ≡ plain.known_exprs (facts_of facts.old) (exprs_view parts)) }
    ensures facts { OnOk result (facts_of facts.new ≡ forget (exprs_writes (exprs_view parts)) (facts_of facts.old)) }
{
    let mut rest = last_first(alloc, parts)?;
    let mut known = Vec::with_capacity(alloc, rest.len())?;
    while let Some(part) = rest.pop() {
        known.push(known_expr(alloc, part, facts)?)?;
    }
    Ok(Items::from_vec(known))
}
