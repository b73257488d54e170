//! Making the object of one unit.

ghost use Rattle.std.specs.Prelude.{◌≡◌, ◌≤◌, IfOk};
ghost use Rattle.lar_bytes.specs.Answers.{Answers};
ghost use Rattle.lease_table.specs.Lease.{IsSameBusy};
ghost use Rattle.unit_input.specs.InputView.{input_view};
ghost use Rattle.unit_object.specs.UnitObject.{object_of, bytes_of, IsBytesOf};
ghost use Rattle.unit_object.specs.Counted.{Counts};

use lar_bytes::{Bytes, OrMemory};
use lease_table::Busy;
use object_format::{Object, read_object};
use std::alloc::Global;
use std::sync::ledger::Ledger;
use step_counter::Steps;
use unit_emit::make;
use unit_input::UnitInput;
use unit_ir::UnitFault;
use unit_lower::generate;

/// The spelling of a unit's object, or the unit's fault: that of the first function that cannot be lowered (30, 31 or 32), and else
/// of the first one whose code is too long (33). It counts one step where the unit is lowered, and none where it is not. It is done
/// under a busy lease, which it leaves as it was.
pub fn make_bytes<L: Ledger>(
    alloc: Global,
    busy: &mut Busy,
    input: &UnitInput,
    steps: &mut Steps<L>,
) -> Result<Bytes, OrMemory<UnitFault>>
    requires { input.now.level ≤ 1 }
    ensures object { Answers (λ b. b) result (bytes_of (input_view input.now)) }
    ensures read { IfOk result (IsBytesOf (input_view input.now)) }
    ensures busy { IsSameBusy busy.old busy.new }
    ensures steps { Counts (input_view input.now) result steps.old steps.new }
{
    let unit = match generate(alloc, busy, input) {
        Ok(unit) => unit,
        Err(error) => return Err(error),
    };
    make(alloc, busy, unit, input.level(), steps)
}

/// The spelling of a unit's object or the unit's fault, made with no other job beside it.
fn made_alone<L: Ledger>(
    alloc: Global,
    input: &UnitInput,
    steps: &mut Steps<L>,
) -> Result<Bytes, OrMemory<UnitFault>>
    requires { input.now.level ≤ 1 }
    ensures object { Answers (λ b. b) result (bytes_of (input_view input.now)) }
    ensures read { IfOk result (IsBytesOf (input_view input.now)) }
    ensures steps { Counts (input_view input.now) result steps.old steps.new }
{
    let mut busy = Busy::alone(alloc)?;
    let made = make_bytes(alloc, &mut busy, input, steps);
    busy.leave();
    made
}

/// The object of a unit or the unit's fault, as in [`make_bytes`], made with no other job beside it.
pub fn make_object<L: Ledger>(
    alloc: Global,
    input: &UnitInput,
    steps: &mut Steps<L>,
) -> Result<Object, OrMemory<UnitFault>>
    requires { input.now.level ≤ 1 }
    ensures object { Answers (λ o. o) result (object_of (input_view input.now)) }
    ensures steps { Counts (input_view input.now) result steps.old steps.new }
{
    let bytes = match made_alone(alloc, input, steps) {
        Ok(bytes) => bytes,
        Err(error) => return Err(error),
    };
    match read_object(alloc, bytes.as_slice()) {
        Ok(object) => Ok(object),
        Err(OrMemory::Memory) => Err(OrMemory::Memory),
        Err(OrMemory::Refused(_)) => unreachable!(),
    }
}
