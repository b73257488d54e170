//! One job: pass the gate, begin, make, end.
ghost use Rattle.std.specs.Prelude.{◌≡◌, ◌<◌};
ghost use Rattle.std.specs.Arc.{arc_value};
ghost use Rattle.lease_table.specs.Lease.{IsSameBusy};
ghost use Rattle.coord_run.specs.Meaning.{Answers, IsPartOf};
ghost use Rattle.coord_run.specs.Messages.{FitsJob, FitsDone};

use crate::gate::Gate;
use crate::message::{Done, Job};
use crate::work::Work;
use lar_bytes::{Bytes, OrMemory};
use lease_table::Busy;
use std::alloc::Global;
use std::marker::Brand;
use std::sync::ledger::{Blank, Ledger};
use std::sync::{Arc, Wait};
use step_counter::Steps;

// Makes the unit on a counter of its own, and reads the counter.
fn counted<W: Work, L: Ledger>(
    alloc: Global,
    work: &Arc<W>,
    unit: u32,
    part: W::Part,
    busy: &mut Busy,
    blank: Blank,
) -> (Result<Bytes, OrMemory<W::Fault>>, u64)
    requires blank { (blank.name ≡ L.name) × (blank.parts ≡ L.parts) × (0 < blank.parts) }
    requires unit { unit < (W.meaning (arc_value work.now)).count }
    requires part { IsPartOf (W.meaning (arc_value work.now)) unit part }
    requires table { busy.old.table ≡ (W.meaning (arc_value work.now)).table }
    ensures busy { IsSameBusy busy.old busy.new }
    ensures answer { Answers ((W.meaning (arc_value work.now)).made unit) result.0 }
    ensures once { result.1 ≡ 1 }
{
    let mut steps = Steps::<L>::new(blank);
    let outcome = work.make(alloc, unit, part, busy, &mut steps);
    (outcome, steps.taken())
}

/// Runs the job in the thread that calls it.
pub fn do_job<W: Work, G: Gate, R: Wait>(
    rt: &R,
    alloc: Global,
    work: &Arc<W>,
    gate: &Arc<G>,
    job: Job<W::Part>,
) -> Done<W::Fault>
    requires { FitsJob (W.meaning (arc_value work.now)) job }
    ensures fits { FitsDone (W.meaning (arc_value work.now)) result }
    ensures unit { result.unit ≡ job.unit }
{
    let Job { unit, part, lease } = job;
    gate.pass(rt, unit);
    let (mut busy, reading) = lease.begin();
    let (outcome, makes) = counted::<W, Brand>(alloc, work, unit, part, &mut busy, Blank::new(1));
    Done {
        unit,
        lease: busy.end(),
        reading,
        makes,
        outcome,
    }
}
