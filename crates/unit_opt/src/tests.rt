//! Trees before and after folding.

use crate::fold::{fold_expr, number_of};
use crate::fold_stmts::fold_stmts;
use sqlite_items::Items;
use std::test::Fail;
use unit_ir::{Binary, IrExpr, IrStmt, Unary};

// Some eight times as deep as the limits of the language let an expression be.
const DEEP: u32 = 4_000;

// An operator on two constants, and the constant that it becomes, if it does.
const FOLDED: [(Binary, i64, i64, Option<i64>); 8] = [
    (Binary::Add, i64::MAX, 1, Some(i64::MIN)),
    (Binary::Sub, 2, 3, Some(-1)),
    (Binary::Mul, 4, 5, Some(20)),
    (Binary::Div, -7, 2, Some(-3)),
    (Binary::Rem, -7, 2, Some(-1)),
    (Binary::Div, 1, 0, None),
    (Binary::Rem, i64::MIN, -1, None),
    (Binary::AtMost, 3, 3, Some(1)),
];

// A first operand, and what `And` and `Or` of it and 9 become, where that is a constant.
const DECIDED: [(i64, Option<i64>, Option<i64>); 3] = [
    (0, Some(0), Some(9)),
    (1, Some(9), Some(1)),
    (7, None, None),
];

// A test, and how many statements are left of an If on it whose first branch prints and returns, of a While on 0, and of a Print.
const LEFT: [(i64, usize); 3] = [(0, 1), (1, 2), (-3, 2)];

#[test]
fn operators_on_constants(rt: HostRuntime) -> Result<(), Fail> {
    let alloc = rt.alloc();
    for (op, a, b, wanted) in FOLDED {
        let e = IrExpr::binary(alloc, op, IrExpr::constant(a), IrExpr::constant(b))?;
        assert_eq!(rt; number_of(&fold_expr(alloc, e)?), wanted);
    }
    Ok(())
}

#[test]
fn constants_that_decide(rt: HostRuntime) -> Result<(), Fail> {
    let alloc = rt.alloc();
    for (a, and, or) in DECIDED {
        let e = IrExpr::and(alloc, IrExpr::constant(a), IrExpr::constant(9))?;
        assert_eq!(rt; number_of(&fold_expr(alloc, e)?), and);
        let e = IrExpr::or(alloc, IrExpr::constant(a), IrExpr::constant(9))?;
        assert_eq!(rt; number_of(&fold_expr(alloc, e)?), or);
    }
    Ok(())
}

#[test]
fn statements_after_a_return(rt: HostRuntime) -> Result<(), Fail> {
    let alloc = rt.alloc();
    for (test, left) in LEFT {
        let mut then = Items::new(alloc);
        then.push(IrStmt::print_stmt(IrExpr::load(2)))?;
        then.push(IrStmt::return_stmt(IrExpr::load(0)))?;
        let mut list = Items::new(alloc);
        list.push(IrStmt::if_stmt(IrExpr::constant(test), then, Items::new(alloc)))?;
        list.push(IrStmt::while_stmt(IrExpr::constant(0), Items::new(alloc)))?;
        list.push(IrStmt::print_stmt(IrExpr::load(1)))?;
        assert_eq!(rt; fold_stmts(alloc, list)?.len(), left);
    }
    Ok(())
}

#[test]
fn deep_trees(rt: HostRuntime) -> Result<(), Fail> {
    let alloc = rt.alloc();
    let mut e = IrExpr::load(0);
    for _ in 0..DEEP {
        e = IrExpr::unary(alloc, Unary::Neg, e)?;
    }
    assert_eq!(rt; number_of(&fold_expr(alloc, e)?), None);
    Ok(())
}
