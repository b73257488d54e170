//! What expressions become. Each is gone through once; parts of a list by a loop. Calls nest as deep as expressions do.

ghost use Rattle.std.specs.Prelude.{◌≡◌, ◌≤◌, true, false, Err, IfOk, OnOk};
ghost use Rattle.unit_input.specs.InputView as input;
ghost use Rattle.unit_input.specs.Rules.{is_expr, are_exprs};
ghost use Rattle.unit_input.specs.Widths.{width, total_width};
ghost use Rattle.unit_ir.specs.ExprView.{expr_view, exprs_view};
ghost use Rattle.unit_lower.specs.Lowering as plain;
ghost use Rattle.unit_lower.specs.Slots.{local_slots};
ghost use Rattle.unit_lower.specs.Wide.{is_wide, are_wide};
ghost use Rattle.unit_lower.specs.ValueView.{IsValueOf, is_over_expr, are_over_exprs};
ghost use Rattle.unit_lower.specs.declared.stop.Stop.TheVariants.{TooWide};

use crate::operator::{Operator, operator_of, unary_of};
use crate::scope::{Scope, raised};
use crate::stop::Stop;
use crate::value::{Value, sequence};
use sqlite_items::Items;
use std::alloc::{AllocError, Global};
use unit_input::{BinaryOp, UnitExpr};
use unit_ir::IrExpr;

fn binary(alloc: Global, op: BinaryOp, a: IrExpr, b: IrExpr) -> Result<IrExpr, AllocError>
    ensures { IfOk result (λ r. expr_view r ≡ plain.binary_of op (expr_view a) (expr_view b)) }
{
    match operator_of(op) {
        Operator::OnWords(op) => IrExpr::binary(alloc, op, a, b),
        Operator::And => IrExpr::and(alloc, a, b),
        Operator::Or => IrExpr::or(alloc, a, b),
    }
}

/// Parts or arguments, and how many words they have together.
#[derive(Drop)]
pub(crate) struct Parts {
    made: Items<IrExpr>,
    width: u8,
}

/// What an expression becomes, or that it is too wide. `next` is the next fresh slot.
#[cycle(exprs)]
#[tactic(auto, using(crate::proofs::Over::local_value, crate::proofs::Over::above_after, crate::proofs::Over::rules_of_whole, crate::proofs::Over::over_field, crate::proofs::Over::field_next, crate::proofs::Over::over_bound, crate::proofs::Over::within_value, crate::proofs::Over::narrow_value, crate::proofs::Over::field_value, crate::proofs::Over::over_left, crate::proofs::Over::over_right, crate::proofs::Over::over_args, crate::proofs::Over::over_given))]
pub(crate) fn value(
    e: &UnitExpr,
    alloc: Global,
    scope: &Scope,
    next: &mut u8,
) -> Result<Value, Stop>
    requires rules { is_expr scope.now (input.expr_view e.now) ≡ true }
    requires above { local_slots scope.now ≤ next.old }
    ensures value { IfOk result (λ v. IsValueOf scope.now (input.expr_view e.now) next.old v) }
    ensures next { OnOk result (next.new ≡ (plain.lower scope.now (input.expr_view e.now) next.old).next) }
    ensures wide { result ≡ Err TooWide → is_over_expr scope.now (input.expr_view e.now) next.old ≡ true }
{
    match e {
        UnitExpr::Int(v) => Ok(Value::Made(IrExpr::constant(*v), 1)),
        UnitExpr::Bool(b) => Ok(Value::Made(IrExpr::constant(if *b { 1 } else { 0 }), 1)),
        UnitExpr::Local(number) => Ok(Value::Lying(scope.local(*number))),
        UnitExpr::Field(whole, offset, count) => {
            let whole = value(whole.get(), alloc, scope, next)?;
            whole.part(alloc, *offset as u8, *count as u8, next)
        }
        UnitExpr::Tuple(parts) => {
            let parts = values(parts.as_slice(), alloc, scope, next)?;
            Ok(Value::Made(sequence(parts.made), parts.width))
        }
        UnitExpr::Unary(op, a) => {
            let a = value(a.get(), alloc, scope, next)?;
            let a = a.into_expr(alloc)?;
            Ok(Value::Made(IrExpr::unary(alloc, unary_of(*op), a)?, 1))
        }
        UnitExpr::Binary(op, a, b) => {
            let a = value(a.get(), alloc, scope, next)?;
            let a = a.into_expr(alloc)?;
            let b = value(b.get(), alloc, scope, next)?;
            let b = b.into_expr(alloc)?;
            Ok(Value::Made(binary(alloc, *op, a, b)?, 1))
        }
        UnitExpr::Call(callee, args) => {
            let args = values(args.as_slice(), alloc, scope, next)?;
            let given = raised(0, scope.given_by(*callee))?;
            Ok(Value::Made(IrExpr::call(*callee, args.made), given))
        }
    }
}

/// What parts or arguments become.
#[cycle(exprs)]
#[tactic(auto, using(crate::proofs::ValueLists::from_start, crate::proofs::ValueLists::rules_here, crate::proofs::ValueLists::more_here, crate::proofs::ValueLists::over_here, crate::proofs::ValueLists::total_here, crate::proofs::ValueLists::at_end))]
fn values(es: &[UnitExpr], alloc: Global, scope: &Scope, next: &mut u8) -> Result<Parts, Stop>
    requires rules { are_exprs scope.now (input.exprs_view es.now) ≡ true }
    requires above { local_slots scope.now ≤ next.old }
    ensures made { IfOk result (λ r. exprs_view r.made ≡ (plain.lower_all scope.now (input.exprs_view es.now) next.old).made) }
    ensures width { IfOk result (λ r. total_width scope.now (input.exprs_view es.now) ≡ r.width) }
    ensures narrow { OnOk result (are_wide scope.now (input.exprs_view es.now) ≡ false) }
    ensures next { OnOk result (next.new ≡ (plain.lower_all scope.now (input.exprs_view es.now) next.old).next) }
    ensures wide { result ≡ Err TooWide → are_over_exprs scope.now (input.exprs_view es.now) next.old ≡ true }
{
    let mut made = Items::new(alloc);
    let mut width = 0u8;
    for e in es {
        let part = value(e, alloc, scope, next)?;
        width = raised(width, u16::from(part.width()))?;
        made.push(part.into_expr(alloc)?)?;
    }
    Ok(Parts { made, width })
}

/// What an expression becomes as a whole, and how many words it has.
pub(crate) fn lowered(
    e: &UnitExpr,
    alloc: Global,
    scope: &Scope,
    next: &mut u8,
) -> Result<(IrExpr, u8), Stop>
    requires rules { is_expr scope.now (input.expr_view e.now) ≡ true }
    requires above { local_slots scope.now ≤ next.old }
    ensures made { IfOk result (λ r. expr_view r.0 ≡ (plain.lower scope.now (input.expr_view e.now) next.old).made) }
    ensures width { IfOk result (λ r. width scope.now (input.expr_view e.now) ≡ r.1) }
    ensures narrow { OnOk result (is_wide scope.now (input.expr_view e.now) ≡ false) }
    ensures next { OnOk result (next.new ≡ (plain.lower scope.now (input.expr_view e.now) next.old).next) }
    ensures wide { result ≡ Err TooWide → is_over_expr scope.now (input.expr_view e.now) next.old ≡ true }
{
    let value = value(e, alloc, scope, next)?;
    let width = value.width();
    let made = value.into_expr(alloc)?;
    Ok((made, width))
}
