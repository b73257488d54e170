//! A unit made.
ghost use Rattle.std.specs.Prelude.{◌≡◌, ◌<◌, IfOk};

use crate::make_object;
use lar_bytes::{OrMemory, Text};
use object_format::Object;
use sqlite_items::Items;
use std::alloc::{AllocError, Global};
use std::marker::Brand;
use std::sync::ledger::{Blank, Ledger};
use std::test::Fail;
use step_counter::Steps;
use unit_input::{UnitExpr, UnitFn, UnitInput, UnitStmt};
use unit_ir::UnitFault;

// PUSH8 7, PRINT, RET
const CODE: [u8; 4] = [0x01, 7, 0x17, 0x16];

// The unit of `main::main` that prints 7.
fn prints_7(alloc: Global) -> Result<UnitInput, AllocError>
    ensures { IfOk result (λ x. x.level ≡ 1) }
{
    let symbol = Text::copied(alloc, "main::main")?;
    let mut body = Items::new(alloc);
    body.push(UnitStmt::print_stmt(UnitExpr::int(7)))?;
    let locals = Items::new(alloc);
    let mut functions = Items::new(alloc);
    functions.push(UnitFn {
        symbol,
        external: true,
        result: 0,
        params: 0,
        locals,
        body,
    })?;
    let externals = Items::new(alloc);
    Ok(UnitInput::new(1, functions, externals))
}

fn prints(object: &Object) -> bool {
    match object.functions() {
        [function] => function.is_external() && function.code() == CODE.as_slice(),
        _ => false,
    }
}

fn is_made(made: Result<Object, OrMemory<UnitFault>>) -> bool {
    match made {
        Ok(object) => prints(&object),
        Err(_) => false,
    }
}

// How many steps are counted for the unit, if its object is as it should be.
fn steps_of<L: Ledger>(alloc: Global, blank: Blank) -> Result<Option<u64>, AllocError>
    requires { (blank.name ≡ L.name) × (blank.parts ≡ L.parts) × (0 < blank.parts) }
{
    let input = prints_7(alloc)?;
    let mut steps = Steps::<L>::new(blank);
    let right = is_made(make_object(alloc, &input, &mut steps));
    let count = steps.taken();
    if right { Ok(Some(count)) } else { Ok(None) }
}

#[test]
fn a_unit_is_made(rt: HostRuntime) -> Result<(), Fail> {
    let count = steps_of::<Brand>(rt.alloc(), Blank::new(1))?;
    assert_eq!(rt; count, Some(1));
    Ok(())
}
