//! What the coordinator runs, without knowing what it is. A work has units, each of which is first
//! generated, on the caller's thread, and then made by a job. Both are given a busy lease, so that
//! nothing is done without a share, and making counts itself on a counter that no other can stand for.
//!
//! A work is defined by its [meaning](Work): of each unit its part and cost, and its bytes. What the
//! coordinator answers of a unit is said by that definition.
ghost use Rattle.std.specs.Prelude.{◌≡◌, ◌<◌, ◌+◌};
ghost use Rattle.lease_table.specs.Lease.{IsSameBusy};
ghost use Rattle.coord_run.specs.Meaning.{Meaning, Answers, IsPartOf};

use lar_bytes::{Bytes, OrMemory};
use lease_table::{Busy, Mark};
use std::alloc::Global;
use std::sync::ledger::Ledger;
use step_counter::Steps;

/// Units that can be generated and made.
pub trait Work: Drop + Send + Sync + 'static {
    /// What is generated of a unit, and made into its bytes.
    type Part: Drop + Send + 'static;

    /// Why a unit is refused.
    type Fault: Drop + Send + 'static;

    ghost meaning: { Self → Meaning Self.Part Self.Fault };

    /// How many units there are. They have the numbers from 0.
    fn units(&self) -> u32
        ensures { result ≡ (meaning self.now).count };

    /// The lease table on which the work is done.
    fn mark(&self) -> &Mark
        ensures { result.now ≡ (meaning self.now).table };

    /// The unit's part, and what making it is expected to cost.
    fn generate(
        &self,
        alloc: Global,
        unit: u32,
        busy: &mut Busy,
    ) -> Result<(Self::Part, u32), OrMemory<Self::Fault>>
        requires unit { unit < (meaning self.now).count }
        requires table { busy.old.table ≡ (meaning self.now).table }
        ensures busy { IsSameBusy busy.old busy.new }
        ensures answer { Answers ((meaning self.now).generated unit) result };

    /// The unit's bytes. Each call counts one step.
    fn make<L: Ledger>(
        &self,
        alloc: Global,
        unit: u32,
        part: Self::Part,
        busy: &mut Busy,
        steps: &mut Steps<L>,
    ) -> Result<Bytes, OrMemory<Self::Fault>>
        requires unit { unit < (meaning self.now).count }
        requires part { IsPartOf (meaning self.now) unit part }
        requires table { busy.old.table ≡ (meaning self.now).table }
        ensures steps { steps.new ≡ steps.old + 1 }
        ensures busy { IsSameBusy busy.old busy.new }
        ensures answer { Answers ((meaning self.now).made unit) result };
}
