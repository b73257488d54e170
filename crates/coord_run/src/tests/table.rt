//! A work that answers by a table.
ghost use Rattle.std.specs.Prelude.{◌≤◌, ◌∷◌, [], Ok, vec_len};
ghost use Rattle.coord_run.specs.Meaning.{Answers};

use crate::work::Work;
use lar_bytes::{Bytes, OrMemory};
use lease_table::{Busy, Mark};
use std::alloc::Global;
use std::sync::ledger::Ledger;
use step_counter::Steps;

/// What there is no memory for.
#[derive(Clone, Copy, PartialEq, Eq, Debug, Drop)]
pub enum Lacks {
    Nothing,
    Generating,
    Making,
}

/// What the table says of a unit.
#[derive(Clone, Copy, Debug, Drop)]
pub struct Plan {
    /// Its part and its cost, or why it is refused.
    pub generated: Result<(u32, u32), u8>,
    /// Its one byte, or why it is refused.
    pub made: Result<u8, u8>,
    pub lacks: Lacks,
}

impl Plan {
    /// A unit of this cost and this byte.
    pub fn made(cost: u32, byte: u8) -> Plan {
        Plan {
            generated: Ok((u32::from(byte), cost)),
            made: Ok(byte),
            lacks: Lacks::Nothing,
        }
    }

    /// One that is generated at this cost and then refused.
    pub fn not_made(cost: u32, fault: u8) -> Plan {
        Plan {
            generated: Ok((0, cost)),
            made: Err(fault),
            lacks: Lacks::Nothing,
        }
    }

    /// One that is not even generated.
    pub fn not_generated(fault: u8) -> Plan {
        Plan {
            generated: Err(fault),
            made: Err(fault),
            lacks: Lacks::Nothing,
        }
    }

    /// One that finds no memory.
    pub fn lacking(lacks: Lacks) -> Plan {
        Plan {
            lacks,
            ..Plan::made(6, 0)
        }
    }
}

/// The work.
#[derive(Drop)]
pub struct Table {
    pub mark: Mark,
    pub plans: Vec<Plan>,
    pub ghost few: { vec_len plans ≤ 65536 },
}

impl Work for Table {
    ghost use Rattle.std.specs.Prelude.{Err, [], ◌∷◌, length, slice_index_or};
    ghost use Rattle.std.specs.Result.{result_map_both};
    ghost use Rattle.coord_run.specs.declared.tests.table.Lacks.TheVariants.{Nothing};

    type Part = u32;

    type Fault = u8;

    ghost meaning = { λ w. record { table = w.mark; count = vec_len w.plans; generated = λ i. (slice_index_or w.plans.items i (record { generated = Err 0; made = Err 0; lacks = Nothing })).generated; made = λ i. result_map_both (λ b. b ∷ []) (λ f. f) (slice_index_or w.plans.items i (record { generated = Err 0; made = Err 0; lacks = Nothing })).made } };

    fn units(&self) -> u32 {
        self.plans.len() as u32
    }

    fn mark(&self) -> &Mark {
        &self.mark
    }

    fn generate(
        &self,
        _alloc: Global,
        unit: u32,
        _busy: &mut Busy,
    ) -> Result<(u32, u32), OrMemory<u8>> {
        let plan = self.plans[unit as usize];
        if plan.lacks == Lacks::Generating {
            return Err(OrMemory::Memory);
        }
        match plan.generated {
            Ok(generated) => Ok(generated),
            Err(fault) => Err(OrMemory::Refused(fault)),
        }
    }

    fn make<L: Ledger>(
        &self,
        alloc: Global,
        unit: u32,
        _part: u32,
        _busy: &mut Busy,
        steps: &mut Steps<L>,
    ) -> Result<Bytes, OrMemory<u8>> {
        steps.tick();
        let plan = self.plans[unit as usize];
        if plan.lacks == Lacks::Making {
            return Err(OrMemory::Memory);
        }
        match plan.made {
            Ok(byte) => one_byte(alloc, byte),
            Err(fault) => Err(OrMemory::Refused(fault)),
        }
    }
}

fn one_byte(alloc: Global, byte: u8) -> Result<Bytes, OrMemory<u8>>
    ensures { Answers (Ok (byte ∷ [])) result }
{
    let mut bytes = Bytes::new(alloc);
    match bytes.push(byte) {
        Ok(()) => Ok(bytes),
        Err(_) => Err(OrMemory::Memory),
    }
}
