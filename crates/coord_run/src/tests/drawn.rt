//! Runs whose costs, lanes, tokens and failures are drawn.
ghost use Rattle.std.specs.Prelude.{◌<◌, ◌≤◌};

use super::table::{Lacks, Plan};
use super::{Said, driven_with, of};
use crate::Driven;
use coord_core::{Core, Event, Main};
use std::alloc::{AllocError, Global};
use std::process::Abort;
use std::sync::Wait;
use std::test::*;
use std::thread::Threads;

const RUNS: u32 = 1_000;

const TOKENS: &[u8] = b"abcdefghijklmnopqrstuvwxyzabcdefghijklmnopqrstuvwxyzabcdefghijk";

/// Draws numbers.
#[derive(Drop)]
struct Draw {
    state: u64,
}

impl Draw {
    fn below(&mut self, n: usize) -> usize
        requires { 0 < n }
        ensures { result < n }
    {
        self.state = self
            .state
            .wrapping_mul(6364136223846793005)
            .wrapping_add(1442695040888963407);
        (self.state >> 33) as usize % n
    }
}

// What the work is defined to give of the unit, where it finds memory.
fn meant(plan: &Plan) -> Said {
    match (plan.generated, plan.made) {
        (Err(fault), _) | (Ok(_), Err(fault)) => Said::Refused(fault),
        (Ok(_), Ok(byte)) => Said::Byte(byte),
    }
}

// Whether a session ends early at the unit: it finds no memory, or is refused and the session does not
// keep going.
fn stops(plan: &Plan, keep: bool) -> bool {
    plan.lacks != Lacks::Nothing || (!keep && matches!(meant(plan), Said::Refused(_)))
}

fn drawn_plan(draw: &mut Draw, failing: usize, unit: u8) -> Plan {
    let cost = draw.below(9) as u32;
    if draw.below(100) >= failing {
        return Plan::made(cost, unit);
    }
    match draw.below(4) {
        0 => Plan::not_generated(unit),
        1 => Plan::lacking(Lacks::Generating),
        2 => Plan::lacking(Lacks::Making),
        _ => Plan::not_made(cost, unit),
    }
}

// When the ask and the generation that are out were decided.
#[derive(Drop)]
struct Decided {
    ask: Option<usize>,
    generation: Option<usize>,
}

impl Decided {
    // Whether the event, where it ends a generation, overtakes an ask that was decided before it.
    fn overtakes(&mut self, event: Event) -> bool {
        let late = match (self.ask, self.generation) {
            (Some(ask), Some(generation)) => ask < generation,
            _ => false,
        };
        match event {
            Event::Took(_) | Event::Empty | Event::TakeFault => self.ask = None,
            Event::Generated(_, _) | Event::GenFailed(_) => {
                self.generation = None;
                return late;
            }
            _ => {}
        }
        false
    }
}

// Tells a coordinator the session's events, and shows that none overtakes an ask.
fn none_overtakes(
    rt: &impl Abort,
    alloc: Global,
    driven: &Driven<u8>,
    lanes: u8,
    keep: bool,
) -> Result<(), AllocError>
    requires some_lane { 0 < lanes }
    requires most_lanes { lanes ≤ 64 }
{
    assert!(rt; driven.outcomes.len() <= 65536);
    let (mut core, mut actions) = Core::new(alloc, driven.outcomes.len() as u32, lanes, keep)?;
    let mut decided = Decided {
        ask: None,
        generation: None,
    };
    for (at, entry) in driven.journal.iter().enumerate() {
        if actions.ask {
            decided.ask = Some(at);
        }
        if let Main::Generate(_) = actions.main {
            decided.generation = Some(at);
        }
        assert!(rt; !decided.overtakes(entry.event), "{:?}", entry.event);
        assert!(rt; core.is_awaited(&entry.event));
        actions = core.next(entry.event);
    }
    Ok(())
}

// Runs drawn units. Up to the first that ends the session, each has the outcome that it is defined to have.
fn run_drawn<R: Abort + Threads + Wait + Copy + Send + Sync + 'static>(
    rt: &R,
    alloc: Global,
    draw: &mut Draw,
    failing: usize,
    keep: bool,
) -> Result<(), Fail> {
    let mut plans = Vec::new(alloc);
    for unit in 0..draw.below(13) {
        plans.push(drawn_plan(draw, failing, unit as u8))?;
    }
    assert!(rt; plans.len() <= 65536);
    let lanes = draw.below(64) as u8 + 1;
    let tokens = draw.below(64);
    let (driven, left) = driven_with(rt, alloc, &plans, &TOKENS[..tokens], lanes, keep)?;
    let sure = plans
        .iter()
        .position(|plan| stops(plan, keep))
        .unwrap_or(plans.len());
    for (unit, plan) in plans.iter().enumerate() {
        if unit < sure {
            assert_eq!(rt; of(&driven, unit), meant(plan));
        }
    }
    assert!(rt; driven.lost.is_empty() && left.len() == tokens);
    none_overtakes(rt, alloc, &driven, lanes, keep)?;
    Ok(())
}

#[test]
fn outcomes_do_not_hang_on_costs_lanes_and_tokens(rt: HostRuntime) -> Result<(), Fail> {
    let mut draw = Draw { state: 20_26 };
    for run in 0..RUNS {
        let failing = [0, 10, 30][run as usize % 3];
        run_drawn(&rt, rt.alloc(), &mut draw, failing, run % 2 == 0)?;
    }
    Ok(())
}
