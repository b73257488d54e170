//! Code by hand.

use crate::function::{Refused, code_of};
use sqlite_items::Items;
use std::alloc::Global;
use std::test::Fail;
use unit_ir::{Binary, IrExpr, IrStmt};

// z: LOAD 0, JZ x, LOAD 0, PUSH8 1, SUB, STORE 0, JMP z, x: PUSH64 128, PRINT, RET
const COUNTED_DOWN: [u8; 30] = [
    0x03, 0, 0x14, 0, 0, 0, 19, 0x03, 0, 0x01, 1, 0x07, 0x04, 0, 0x13, 0, 0, 0, 0, 0x02, 0, 0, 0,
    0, 0, 0, 0, 128, 0x17, 0x16,
];

// Slot 0 is counted down to 0, and then 128 is printed.
fn counting_down(alloc: Global) -> Result<Items<IrStmt>, Refused> {
    let less = IrExpr::binary(alloc, Binary::Sub, IrExpr::load(0), IrExpr::constant(1))?;
    let mut turn = Items::new(alloc);
    turn.push(IrStmt::store(0, 1, less))?;
    let mut body = Items::new(alloc);
    body.push(IrStmt::while_stmt(IrExpr::load(0), turn))?;
    body.push(IrStmt::print_stmt(IrExpr::constant(128)))?;
    Ok(body)
}

fn code(alloc: Global) -> Result<Vec<u8>, Refused> {
    code_of(alloc, counting_down(alloc)?.as_slice(), 0)
}

#[test]
fn a_loop_and_a_long_push(rt: HostRuntime) -> Result<(), Fail> {
    let wanted = COUNTED_DOWN.as_slice();
    assert!(rt; matches!(code(rt.alloc()), Ok(code) if code.as_slice() == wanted));
    Ok(())
}
