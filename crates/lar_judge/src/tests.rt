use super::*;
use lar_source::Span;
use lar_told::First;
use lar_tree::Unary;
use std::test::Fail;
use type_table::Types;

// A line for each case: the sign, whether the operand is a number, and whether the whole has a type.
const SIGNS: [(Unary, bool, bool); 4] = [
    (Unary::Minus, true, true),
    (Unary::Minus, false, false),
    (Unary::Not, true, false),
    (Unary::Not, false, true),
];

#[test]
fn a_sign_wants_its_operand(rt: HostRuntime) -> Result<(), Fail> {
    let alloc = rt.alloc();
    let at = Span {
        file: 0,
        line: 1,
        col: 2,
    };
    let here = Here {
        file: 0,
        structs: &[],
        generics: &[],
    };
    for (op, of_number, fits) in SIGNS {
        let mut types = Types::new(alloc);
        let mut first = First::new();
        let operand = if of_number {
            number(&mut types, at, 7)?
        } else {
            truth(&mut types, at, true)?
        };
        let whole = unary(alloc, &mut types, &mut first, &here, op, at, operand)?;
        assert_eq!(rt; whole.typed.is_some(), fits);
        assert_eq!(rt; first.into_fault().is_none(), fits);
    }
    Ok(())
}
