//! A unit lowered.

use crate::generate;
use lar_bytes::{OrMemory, Text};
use lease_table::Busy;
use sqlite_items::Items;
use std::alloc::{AllocError, Global};
use std::test::Fail;
use unit_input::{UnitExpr, UnitFn, UnitInput, UnitStmt};
use unit_ir::{IrExpr, IrStmt, IrUnit, UnitFault};

// The unit of `main::main` that prints 7.
fn prints_7(alloc: Global) -> Result<UnitInput, AllocError> {
    let symbol = Text::copied(alloc, "main::main")?;
    let mut body = Items::new(alloc);
    body.push(UnitStmt::print_stmt(UnitExpr::int(7)))?;
    let locals = Items::new(alloc);
    let mut functions = Items::new(alloc);
    functions.push(UnitFn {
        symbol,
        external: true,
        result: 0,
        params: 0,
        locals,
        body,
    })?;
    let externals = Items::new(alloc);
    Ok(UnitInput::new(1, functions, externals))
}

fn prints(unit: &IrUnit) -> bool {
    match unit.functions() {
        [function] => matches!(function.body.as_slice(), [IrStmt::Print(IrExpr::Const(7))]),
        _ => false,
    }
}

fn is_lowered(made: Result<IrUnit, OrMemory<UnitFault>>) -> bool {
    match made {
        Ok(unit) => prints(&unit),
        Err(_) => false,
    }
}

#[test]
fn a_unit_is_lowered(rt: HostRuntime) -> Result<(), Fail> {
    let input = prints_7(rt.alloc())?;
    let mut busy = Busy::alone(rt.alloc())?;
    let made = generate(rt.alloc(), &mut busy, &input);
    busy.leave();
    assert!(rt; is_lowered(made));
    Ok(())
}
