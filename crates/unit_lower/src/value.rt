//! Where the words of an expression come from.

ghost use Rattle.std.specs.Prelude.{◌≡◌, ◌+◌, ◌<◌, ◌≤◌, Err, IfOk, OnOk};
ghost use Rattle.unit_ir.specs.ExprView.{expr_view, exprs_view};
ghost use Rattle.unit_lower.specs.Lowering as plain;
ghost use Rattle.unit_lower.specs.ValueView.{made_of, width_of, Fits, IsPart, next_after};
ghost use Rattle.unit_lower.specs.declared.stop.Stop.TheVariants.{TooWide};

use crate::scope::{Slots, raised};
use crate::stop::Stop;
use sqlite_items::Items;
use std::alloc::{AllocError, Global};
use unit_ir::IrExpr;

/// The words of an expression: a local or a part of one lies in its slots, and another is made. Only where a whole is
/// needed are the words of slots loaded, so a part of a part loads its own words alone.
#[derive(Drop)]
pub(crate) enum Value {
    Lying(Slots),
    /// What gives the words, and how many.
    Made(IrExpr, u8),
}

// The words in these slots, a load for each.
#[tactic(auto, using(crate::proofs::Sequences::one_load, crate::proofs::Sequences::all_loads))]
fn loads(alloc: Global, slots: Slots) -> Result<Items<IrExpr>, AllocError>
    requires { slots.first + slots.count ≤ 255 }
    ensures { IfOk result (λ r. exprs_view r ≡ plain.loads slots.first slots.count) }
{
    let mut made = Items::new(alloc);
    for slot in slots.first..slots.first + slots.count {
        made.push(IrExpr::load(slot))?;
    }
    Ok(made)
}

/// The words of parts in order.
#[tactic(auto, using(crate::proofs::Sequences::sequence_of_one, crate::proofs::Sequences::sequence_of_more))]
pub(crate) fn sequence(parts: Items<IrExpr>) -> IrExpr
    ensures { expr_view result ≡ plain.sequence (exprs_view parts) }
{
    let mut parts = parts;
    if parts.len() != 1 {
        return IrExpr::seq(parts);
    }
    match parts.pop() {
        Some(only) => only,
        None => IrExpr::seq(parts),
    }
}

// The words in these slots.
fn words(alloc: Global, slots: Slots) -> Result<IrExpr, AllocError>
    requires { slots.first + slots.count ≤ 255 }
    ensures { IfOk result (λ r. expr_view r ≡ plain.words slots.first slots.count) }
{
    if slots.count == 1 {
        return Ok(IrExpr::load(slots.first));
    }
    Ok(sequence(loads(alloc, slots)?))
}

impl Value {
    /// How many words there are.
    pub(crate) fn width(&self) -> u8
        ensures { result ≡ width_of self.now }
    {
        match self {
            Value::Lying(slots) => slots.count,
            Value::Made(_, width) => *width,
        }
    }

    /// What gives the words.
    pub(crate) fn into_expr(self, alloc: Global) -> Result<IrExpr, AllocError>
        requires { Fits self }
        ensures { IfOk result (λ r. expr_view r ≡ made_of self) }
    {
        match self {
            Value::Lying(slots) => words(alloc, slots),
            Value::Made(made, _) => Ok(made),
        }
    }

    /// So many words of it, from this offset on. What lies in no slots is put into fresh ones.
    pub(crate) fn part(
        self,
        alloc: Global,
        offset: u8,
        count: u8,
        next: &mut u8,
    ) -> Result<Value, Stop>
        requires fits { Fits self }
        requires part { offset + count ≤ width_of self }
        ensures part { IfOk result (λ r. IsPart offset count self next.old r) }
        ensures next { OnOk result (next.new ≡ next_after self next.old) }
        ensures wide { result ≡ Err TooWide → 255 < next_after self next.old }
    {
        match self {
            Value::Lying(slots) => Ok(Value::Lying(Slots {
                first: slots.first + offset,
                count,
            })),
            Value::Made(made, width) => {
                let first = *next;
                *next = raised(first, u16::from(width))?;
                let rest = words(
                    alloc,
                    Slots {
                        first: first + offset,
                        count,
                    },
                )?;
                let bound = IrExpr::bind(alloc, first, width, made, rest)?;
                Ok(Value::Made(bound, count))
            }
        }
    }
}
