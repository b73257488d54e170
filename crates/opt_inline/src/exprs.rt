//! Expressions whose calls of small functions are replaced, in the order in which calls are done.

ghost use Rattle.std.specs.Prelude.{◌≡◌, IfOk, OnOk, Some};
ghost use Rattle.unit_ir.specs.ExprView.{expr_view, exprs_view};
ghost use Rattle.unit_ir.specs.InRange.{ExprInRange};
ghost use Rattle.opt_inline.specs.Inline as plain;
ghost use Rattle.opt_inline.specs.Places.{SmallsInRange};
ghost use Rattle.opt_inline.specs.SmallView.{small_view, smalls_view};

use crate::raise::raised;
use crate::small::Small;
use opt_slots::last_first;
use sqlite_items::Items;
use std::alloc::{AllocError, Global};
use unit_ir::IrExpr;

/// An expression of a function that has so many slots so far, and the slots behind it.
#[cycle(inlined)]
pub(crate) fn inlined_expr(
    alloc: Global,
    e: IrExpr,
    slots: &mut u8,
    small: &[Option<Small>],
) -> Result<IrExpr, AllocError>
    requires { SmallsInRange (smalls_view small.now) }
    ensures expr { IfOk result (λ r. expr_view r ≡ plain.inlined_expr (smalls_view small.now) slots.old (expr_view e)) }
    ensures slots { OnOk result (slots.new ≡ plain.expr_slots (smalls_view small.now) slots.old (expr_view e)) }
{
    match e {
        IrExpr::Const(v) => Ok(IrExpr::Const(v)),
        IrExpr::Load(slot) => Ok(IrExpr::Load(slot)),
        IrExpr::Op1(op, a) => {
            let a = inlined_expr(alloc, a.into_inner(), slots, small)?;
            Ok(IrExpr::unary(alloc, op, a)?)
        }
        IrExpr::Op2(op, a, b) => {
            let a = inlined_expr(alloc, a.into_inner(), slots, small)?;
            let b = inlined_expr(alloc, b.into_inner(), slots, small)?;
            Ok(IrExpr::binary(alloc, op, a, b)?)
        }
        IrExpr::And(a, b) => {
            let a = inlined_expr(alloc, a.into_inner(), slots, small)?;
            let b = inlined_expr(alloc, b.into_inner(), slots, small)?;
            Ok(IrExpr::and(alloc, a, b)?)
        }
        IrExpr::Or(a, b) => {
            let a = inlined_expr(alloc, a.into_inner(), slots, small)?;
            let b = inlined_expr(alloc, b.into_inner(), slots, small)?;
            Ok(IrExpr::or(alloc, a, b)?)
        }
        IrExpr::Call(function, args) => {
            let args = inlined_exprs(alloc, args, slots, small)?;
            Ok(inlined_call(alloc, function, args, slots, small)?)
        }
        IrExpr::Seq(parts) => {
            let parts = inlined_exprs(alloc, parts, slots, small)?;
            Ok(IrExpr::seq(parts))
        }
        IrExpr::Bind(first, count, a, b) => {
            let a = inlined_expr(alloc, a.into_inner(), slots, small)?;
            let b = inlined_expr(alloc, b.into_inner(), slots, small)?;
            Ok(IrExpr::bind(alloc, first, count, a, b)?)
        }
    }
}

// The parts from the first on.
#[cycle(inlined)]
fn inlined_exprs(
    alloc: Global,
    parts: Items<IrExpr>,
    slots: &mut u8,
    small: &[Option<Small>],
) -> Result<Items<IrExpr>, AllocError>
    requires { SmallsInRange (smalls_view small.now) }
    ensures parts { IfOk result (λ r. exprs_view r ≡ plain.inlined_exprs (smalls_view small.now) slots.old (exprs_view parts)) }
    ensures slots { OnOk result (slots.new ≡ plain.exprs_slots (smalls_view small.now) slots.old (exprs_view parts)) }
{
    let mut rest = last_first(alloc, parts)?;
    let mut done = Vec::with_capacity(alloc, rest.len())?;
    while let Some(part) = rest.pop() {
        done.push(inlined_expr(alloc, part, slots, small)?)?;
    }
    Ok(Items::from_vec(done))
}

// A call whose arguments are done.
fn inlined_call(
    alloc: Global,
    function: u32,
    args: Items<IrExpr>,
    slots: &mut u8,
    small: &[Option<Small>],
) -> Result<IrExpr, AllocError>
    requires { SmallsInRange (smalls_view small.now) }
    ensures expr { IfOk result (λ r. expr_view r ≡ plain.inlined_call function (exprs_view args) slots.old (plain.callee (smalls_view small.now) function)) }
    ensures slots { OnOk result (slots.new ≡ plain.slots_behind slots.old (plain.callee (smalls_view small.now) function)) }
{
    if function as usize >= small.len() {
        return Ok(IrExpr::call(function, args));
    }
    match &small[function as usize] {
        None => Ok(IrExpr::call(function, args)),
        Some(callee) => Ok(in_place(alloc, function, args, slots, callee)?),
    }
}

// A call of a small function. Where the slots would be more than 255, it stays.
fn in_place(
    alloc: Global,
    function: u32,
    args: Items<IrExpr>,
    slots: &mut u8,
    callee: &Small,
) -> Result<IrExpr, AllocError>
    requires { ExprInRange callee.now.slots 0 (expr_view callee.now.gives) }
    ensures expr { IfOk result (λ r. expr_view r ≡ plain.inlined_call function (exprs_view args) slots.old (Some (small_view callee.now))) }
    ensures slots { OnOk result (slots.new ≡ plain.slots_behind slots.old (Some (small_view callee.now))) }
{
    let base = *slots;
    let behind = match base.checked_add(callee.slots) {
        None => return Ok(IrExpr::call(function, args)),
        Some(behind) => behind,
    };
    let rest = raised(alloc, &callee.gives, base)?;
    let e = IrExpr::bind(alloc, base, callee.params, IrExpr::seq(args), rest)?;
    *slots = behind;
    Ok(e)
}
