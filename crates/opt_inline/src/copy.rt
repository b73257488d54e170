//! Copies of expressions.

ghost use Rattle.std.specs.Prelude.{◌≡◌, IfOk};
ghost use Rattle.unit_ir.specs.ExprView.{expr_view, exprs_view};

use sqlite_items::Items;
use std::alloc::{AllocError, Global};
use unit_ir::IrExpr;

/// A copy of an expression.
#[cycle(copy)]
pub(crate) fn copied(alloc: Global, e: &IrExpr) -> Result<IrExpr, AllocError>
    ensures { IfOk result (λ r. expr_view r ≡ expr_view e.now) }
{
    match e {
        IrExpr::Const(v) => Ok(IrExpr::constant(*v)),
        IrExpr::Load(slot) => Ok(IrExpr::load(*slot)),
        IrExpr::Op1(op, a) => {
            let a = copied(alloc, a.get())?;
            Ok(IrExpr::unary(alloc, *op, a)?)
        }
        IrExpr::Op2(op, a, b) => {
            let a = copied(alloc, a.get())?;
            let b = copied(alloc, b.get())?;
            Ok(IrExpr::binary(alloc, *op, a, b)?)
        }
        IrExpr::And(a, b) => {
            let a = copied(alloc, a.get())?;
            let b = copied(alloc, b.get())?;
            Ok(IrExpr::and(alloc, a, b)?)
        }
        IrExpr::Or(a, b) => {
            let a = copied(alloc, a.get())?;
            let b = copied(alloc, b.get())?;
            Ok(IrExpr::or(alloc, a, b)?)
        }
        IrExpr::Call(function, args) => {
            let args = all_copied(alloc, args.as_slice())?;
            Ok(IrExpr::call(*function, args))
        }
        IrExpr::Seq(parts) => {
            let parts = all_copied(alloc, parts.as_slice())?;
            Ok(IrExpr::seq(parts))
        }
        IrExpr::Bind(first, count, a, b) => {
            let a = copied(alloc, a.get())?;
            let b = copied(alloc, b.get())?;
            Ok(IrExpr::bind(alloc, *first, *count, a, b)?)
        }
    }
}

#[cycle(copy)]
fn all_copied(alloc: Global, parts: &[IrExpr]) -> Result<Items<IrExpr>, AllocError>
    ensures { IfOk result (λ r. exprs_view r ≡ exprs_view parts.now) }
{
    let mut done = Vec::with_capacity(alloc, parts.len())?;
    for part in parts {
        done.push(copied(alloc, part)?)?;
    }
    Ok(Items::from_vec(done))
}
