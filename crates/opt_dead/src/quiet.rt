//! Expressions of which nothing is seen but their words.

ghost use Rattle.std.specs.Prelude.{◌≡◌};
ghost use Rattle.unit_ir.specs.ExprView.{expr_view, exprs_view};
ghost use Rattle.opt_dead.specs.Dead as plain;

use unit_ir::IrExpr;

/// Whether an expression has no call, division or remainder.
#[cycle(quiet)]
pub(crate) fn is_quiet(e: &IrExpr) -> bool
    ensures { result ≡ plain.quiet (expr_view e.now) }
{
    match e {
        IrExpr::Const(_) => true,
        IrExpr::Load(_) => true,
        IrExpr::Op1(_, a) => is_quiet(a.get()),
        IrExpr::Op2(op, a, b) => !op.may_trap() && is_quiet(a.get()) && is_quiet(b.get()),
        IrExpr::And(a, b) => is_quiet(a.get()) && is_quiet(b.get()),
        IrExpr::Or(a, b) => is_quiet(a.get()) && is_quiet(b.get()),
        IrExpr::Call(_, _) => false,
        IrExpr::Seq(parts) => all_quiet(parts.as_slice()),
        IrExpr::Bind(_, _, a, b) => is_quiet(a.get()) && is_quiet(b.get()),
    }
}

#[cycle(quiet)]
fn all_quiet(parts: &[IrExpr]) -> bool
    ensures { result ≡ plain.all_quiet (exprs_view parts.now) }
{
    for part in parts {
        if !is_quiet(part) {
            return false;
        }
    }
    true
}
