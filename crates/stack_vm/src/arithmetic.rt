//! What the machine computes on words.

ghost use Rattle.std.specs.Prelude.{◌≡◌, ℤ, ◌+ℤ◌, ◌-ℤ◌, ◌*ℤ◌};
ghost use lib.Signed.{lt_z};
ghost use Rattle.std.specs.Int.{int_wrap, w64};
ghost use Rattle.std.specs.Ordering.{int_eq};
ghost use Rattle.stack_vm.specs.Words.{quotient, remainder, truth, opposite, computed};

use crate::end::Kind;
use object_format::Operator;

#[inline(always)]
fn sum(a: i64, b: i64) -> i64
    ensures { result ≡ int_wrap w64 (a +ℤ b) }
{
    a.wrapping_add(b)
}

#[inline(always)]
fn difference(a: i64, b: i64) -> i64
    ensures { result ≡ int_wrap w64 (a -ℤ b) }
{
    a.wrapping_sub(b)
}

#[inline(always)]
fn product(a: i64, b: i64) -> i64
    ensures { result ≡ int_wrap w64 (a *ℤ b) }
{
    a.wrapping_mul(b)
}

#[inline(always)]
pub fn negated(a: i64) -> i64
    ensures { result ≡ opposite a }
{
    a.wrapping_neg()
}

#[inline(always)]
fn divided(a: i64, b: i64) -> Result<i64, Kind>
    ensures { result ≡ quotient a b }
{
    if b == 0 {
        return Err(Kind::Division);
    }
    if a == i64::MIN && b == -1 {
        return Err(Kind::Overflow);
    }
    Ok(a / b)
}

#[inline(always)]
fn rest(a: i64, b: i64) -> Result<i64, Kind>
    ensures { result ≡ remainder a b }
{
    if b == 0 {
        return Err(Kind::Division);
    }
    if a == i64::MIN && b == -1 {
        return Err(Kind::Overflow);
    }
    Ok(a % b)
}

#[inline(always)]
pub fn word(b: bool) -> i64
    ensures { result ≡ truth b }
{
    if b { 1 } else { 0 }
}

#[inline(always)]
fn is_less(a: i64, b: i64) -> bool
    ensures { result ≡ lt_z a b }
{
    a < b
}

#[inline(always)]
pub fn is_equal(a: i64, b: i64) -> bool
    ensures { result ≡ int_eq a b }
{
    a == b
}

/// What an operator makes of a and, above it, b.
#[inline(always)]
pub fn computed(operator: Operator, a: i64, b: i64) -> Result<i64, Kind>
    ensures { result ≡ computed operator a b }
{
    match operator {
        Operator::Add => Ok(sum(a, b)),
        Operator::Sub => Ok(difference(a, b)),
        Operator::Mul => Ok(product(a, b)),
        Operator::Div => divided(a, b),
        Operator::Rem => rest(a, b),
        Operator::Equal => Ok(word(is_equal(a, b))),
        Operator::NotEqual => Ok(word(!is_equal(a, b))),
        Operator::Less => Ok(word(is_less(a, b))),
        Operator::AtMost => Ok(word(!is_less(b, a))),
        Operator::Greater => Ok(word(is_less(b, a))),
        Operator::AtLeast => Ok(word(!is_less(a, b))),
    }
}
