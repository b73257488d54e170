//! What operators give.

use crate::{Binary, Unary};
use std::test::Fail;

// An operator, its operands, and what it gives, if it does not trap.
const GIVEN: [(Binary, i64, i64, Option<i64>); 12] = [
    (Binary::Add, i64::MAX, 1, Some(i64::MIN)),
    (Binary::Sub, i64::MIN, 1, Some(i64::MAX)),
    (Binary::Mul, i64::MAX, 2, Some(-2)),
    (Binary::Div, -7, 2, Some(-3)),
    (Binary::Div, i64::MIN, -1, None),
    (Binary::Rem, -7, 2, Some(-1)),
    (Binary::Rem, 5, 0, None),
    (Binary::Equal, 3, 3, Some(1)),
    (Binary::NotEqual, 3, 3, Some(0)),
    (Binary::Less, -1, 0, Some(1)),
    (Binary::Greater, -1, 0, Some(0)),
    (Binary::AtLeast, 0, 0, Some(1)),
];

#[test]
fn operators(rt: HostRuntime) -> Result<(), Fail> {
    for (op, a, b, given) in GIVEN {
        assert_eq!(rt; op.apply(a, b), given);
    }
    assert_eq!(rt; Unary::Neg.apply(i64::MIN), i64::MIN);
    assert_eq!(rt; Unary::Not.apply(0), 1);
    assert_eq!(rt; Unary::Not.apply(-4), 0);
    assert!(rt; Binary::Rem.may_trap());
    Ok(())
}
