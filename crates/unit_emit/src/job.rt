//! What a job does with a unit.

ghost use Rattle.std.specs.Prelude.{◌≡◌, ◌+◌, ◌≤◌};
ghost use Rattle.lar_bytes.specs.Answers.{Answers};
ghost use Rattle.lease_table.specs.Lease.{IsSameBusy};
ghost use Rattle.unit_ir.specs.Units.{unit_view};
ghost use Rattle.unit_opt.specs.Optimised.{optimised};
ghost use Rattle.unit_emit.specs.Object.{emitted};

use crate::object::emitted;
use lar_bytes::{Bytes, OrMemory};
use lease_table::Busy;
use std::alloc::Global;
use std::sync::ledger::Ledger;
use step_counter::Steps;
use unit_ir::{IrUnit, UnitFault};
use unit_opt::optimise;

/// The spelling of a unit's object at a level of the optimiser, or the fault of its first function whose code is too long.
/// It counts one step, whatever it answers. It is done under a busy lease, which it leaves as it was.
pub fn make<L: Ledger>(
    alloc: Global,
    busy: &mut Busy,
    unit: IrUnit,
    level: u8,
    steps: &mut Steps<L>,
) -> Result<Bytes, OrMemory<UnitFault>>
    requires { level ≤ 2 }
    ensures object { Answers (λ b. b) result (emitted (optimised level (unit_view unit))) }
    ensures busy { IsSameBusy busy.old busy.new }
    ensures steps { steps.new ≡ steps.old + 1 }
{
    steps.tick();
    let unit = optimise(alloc, unit, level)?;
    emitted(alloc, unit)
}
