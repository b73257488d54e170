//! The functions of an object.

ghost use Rattle.std.specs.Prelude.{◌≡◌};
ghost use Rattle.lar_bytes.specs.Answers.{Answers};
ghost use Rattle.unit_ir.specs.Units.{unit_view};
ghost use Rattle.unit_emit.specs.Object.{emitted_functions, emitted};

use crate::function::{Refused, code_of};
use lar_bytes::{Bytes, OrMemory, Text};
use object_format::{Object, ObjectFn, ObjectFunctions, write_object};
use std::alloc::Global;
use unit_ir::{IrUnit, UnitFault};

const TOO_LONG: u8 = 33;

// The functions with their code, or the first one whose code is too long.
fn emitted_functions(alloc: Global, unit: &IrUnit) -> Result<ObjectFunctions, OrMemory<UnitFault>>
    ensures { Answers (λ fs. fs) result (emitted_functions (unit_view unit.now)) }
{
    let mut made = ObjectFunctions::new(alloc);
    let functions = unit.functions();
    for (number, function) in functions.iter().enumerate() {
        let code = match code_of(alloc, function.body.as_slice(), function.result) {
            Ok(code) => Bytes::from_vec(code),
            Err(Refused::Memory) => return Err(OrMemory::Memory),
            Err(Refused::TooLong) => return Err(OrMemory::Refused(UnitFault {
                code: TOO_LONG,
                function: number as u32,
                assertion: 0,
            })),
        };
        let symbol = Text::copied(alloc, function.symbol.as_str())?;
        made.push(ObjectFn::new(
            symbol,
            function.external,
            function.params,
            function.result,
            function.slots,
            code,
        ))?;
    }
    Ok(made)
}

/// The spelling of a unit's object.
pub(crate) fn emitted(alloc: Global, unit: IrUnit) -> Result<Bytes, OrMemory<UnitFault>>
    ensures { Answers (λ b. b) result (emitted (unit_view unit)) }
{
    let functions = match emitted_functions(alloc, &unit) {
        Ok(functions) => functions,
        Err(error) => return Err(error),
    };
    let (_, externals) = unit.into_parts();
    let object = Object::new(functions, externals);
    let bytes = write_object(alloc, &object)?;
    Ok(bytes)
}
