//! Copies of expressions with their slots raised.

ghost use Rattle.std.specs.Prelude.{◌≡◌, IfOk};
ghost use Rattle.unit_ir.specs.ExprView.{expr_view, exprs_view};
ghost use Rattle.opt_inline.specs.Places.{turned_up, all_turned_up};

use sqlite_items::Items;
use std::alloc::{AllocError, Global};
use unit_ir::IrExpr;

/// A copy of an expression with each slot raised by `base`.
#[cycle(raise)]
pub(crate) fn raised(alloc: Global, e: &IrExpr, base: u8) -> Result<IrExpr, AllocError>
    ensures { IfOk result (λ r. expr_view r ≡ turned_up base (expr_view e.now)) }
{
    match e {
        IrExpr::Const(v) => Ok(IrExpr::constant(*v)),
        IrExpr::Load(slot) => Ok(IrExpr::load(slot.wrapping_add(base))),
        IrExpr::Op1(op, a) => {
            let a = raised(alloc, a.get(), base)?;
            Ok(IrExpr::unary(alloc, *op, a)?)
        }
        IrExpr::Op2(op, a, b) => {
            let a = raised(alloc, a.get(), base)?;
            let b = raised(alloc, b.get(), base)?;
            Ok(IrExpr::binary(alloc, *op, a, b)?)
        }
        IrExpr::And(a, b) => {
            let a = raised(alloc, a.get(), base)?;
            let b = raised(alloc, b.get(), base)?;
            Ok(IrExpr::and(alloc, a, b)?)
        }
        IrExpr::Or(a, b) => {
            let a = raised(alloc, a.get(), base)?;
            let b = raised(alloc, b.get(), base)?;
            Ok(IrExpr::or(alloc, a, b)?)
        }
        IrExpr::Call(function, args) => {
            let args = all_raised(alloc, args.as_slice(), base)?;
            Ok(IrExpr::call(*function, args))
        }
        IrExpr::Seq(parts) => {
            let parts = all_raised(alloc, parts.as_slice(), base)?;
            Ok(IrExpr::seq(parts))
        }
        IrExpr::Bind(first, count, a, b) => {
            let a = raised(alloc, a.get(), base)?;
            let b = raised(alloc, b.get(), base)?;
            Ok(IrExpr::bind(alloc, first.wrapping_add(base), *count, a, b)?)
        }
    }
}

#[cycle(raise)]
fn all_raised(alloc: Global, parts: &[IrExpr], base: u8) -> Result<Items<IrExpr>, AllocError>
    ensures { IfOk result (λ r. exprs_view r ≡ all_turned_up base (exprs_view parts.now)) }
{
    let mut done = Vec::with_capacity(alloc, parts.len())?;
    for part in parts {
        done.push(raised(alloc, part, base)?)?;
    }
    Ok(Items::from_vec(done))
}
