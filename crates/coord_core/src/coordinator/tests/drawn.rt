//! Runs whose answers are drawn: the coordinator beside the plain one, and a long run.
ghost use Rattle.std.specs.Prelude.{◌<◌};

use super::super::*;
use super::plain::Plain;
use super::{NOTHING, told};
use crate::event::Main;
use crate::job::Job;
use crate::queue::Queued;
use std::process::Abort;
use std::test::Fail;

/// An action that waits for its answer.
#[derive(Clone, Copy, Drop)]
enum Out {
    Ask,
    Generation(u32),
    Job(u32),
    Give(u8),
}

/// Draws numbers, and answers by them.
#[derive(Drop)]
struct Draw {
    state: u64,
    /// How many answers of a hundred are failures.
    failing: usize,
}

impl Draw {
    fn below(&mut self, n: usize) -> usize
        requires { 0 < n }
        ensures { result < n }
    {
        self.state = self
            .state
            .wrapping_mul(6364136223846793005)
            .wrapping_add(1442695040888963407);
        (self.state >> 33) as usize % n
    }

    fn fails(&mut self) -> bool {
        let failing = self.failing;
        self.below(100) < failing
    }

    fn answer(&mut self, out: Out) -> Event {
        match out {
            Out::Ask if self.fails() => {
                if self.below(8) == 0 {
                    Event::TakeFault
                } else {
                    Event::Empty
                }
            }
            Out::Ask => Event::Took(self.below(3) as u8 + 0x61),
            Out::Generation(unit) if self.fails() => {
                if self.below(2) == 0 {
                    Event::GenFailed(unit)
                } else {
                    Event::Wanted(unit)
                }
            }
            Out::Generation(unit) => Event::Generated(unit, self.below(5) as u32),
            Out::Job(unit) if self.fails() => {
                if self.below(2) == 0 {
                    Event::MakeFailed(unit)
                } else {
                    Event::Wanted(unit)
                }
            }
            Out::Job(unit) => Event::Made(unit),
            Out::Give(byte) if self.fails() => Event::GiveFault(byte),
            Out::Give(byte) => Event::Gave(byte),
        }
    }
}

fn note(outs: &mut Vec<Out>, actions: &Actions) -> Result<(), AllocError> {
    if let Some((_, unit)) = actions.start {
        outs.push(Out::Job(unit))?;
    }
    if let Some(byte) = actions.give {
        outs.push(Out::Give(byte))?;
    }
    match actions.main {
        Main::Idle => {}
        Main::Generate(unit) => outs.push(Out::Generation(unit))?,
        Main::Lend(unit) => outs.push(Out::Job(unit))?,
    }
    if actions.ask {
        outs.push(Out::Ask)?;
    }
    Ok(())
}

// Both have the same units waiting.
fn same_queue(core: &[Queued], plain: &[(u32, u32)]) -> bool {
    core.len() == plain.len()
        && core.iter().all(|entry| {
            plain
                .iter()
                .any(|other| other.0 == entry.cost && other.1 == entry.unit)
        })
}

// Both have the same jobs out.
fn same_jobs(core: &[Job], plain: &[(u32, Option<u8>)]) -> bool {
    core.len() == plain.len()
        && core.iter().all(|job| {
            plain
                .iter()
                .any(|other| other.0 == job.unit && other.1 == job.payer)
        })
}

fn times(bytes: &[u8], byte: u8) -> usize {
    bytes.iter().filter(|other| **other == byte).count()
}

// Both give back the same bytes, each as often.
fn same_bytes(core: &[u8], plain: &[u8]) -> bool {
    core.len() == plain.len()
        && core
            .iter()
            .all(|byte| times(core, *byte) == times(plain, *byte))
}

// Both know the same.
fn same(core: &Core, plain: &Plain) -> bool {
    let board = &core.board;
    board.next == plain.next
        && board.generating == plain.generating
        && board.bar == plain.bar()
        && board.asks == plain.asks
        && board.asking == plain.asking
        && board.spare == plain.spare
        && same_queue(&board.queue, &plain.queue)
        && same_jobs(&board.running, &plain.running)
        && same_bytes(&board.giving, &plain.giving)
        && core.finished() == plain.finished()
}

// Both are told the event, and answer the same and know the same then.
fn told_both(
    rt: &impl Abort,
    core: &mut Core,
    plain: &mut Plain,
    event: Event,
) -> Result<Actions, AllocError> {
    let actions = told(rt, core, event);
    let other = plain.next(Some(event))?;
    assert!(rt; actions == other, "after {event:?}");
    assert!(rt; same(core, plain), "after {event:?}");
    Ok(actions)
}

// Draws answers until none is awaited.
fn run_both(
    rt: &impl Abort,
    alloc: Global,
    first: Actions,
    core: &mut Core,
    plain: &mut Plain,
    draw: &mut Draw,
) -> Result<(), AllocError> {
    let mut outs = Vec::new(alloc);
    let mut actions = first;
    for _ in 0..8 * 64 + 1 {
        note(&mut outs, &actions)?;
        if outs.is_empty() {
            break;
        }
        let at = draw.below(outs.len());
        let event = draw.answer(outs.swap_remove(at));
        actions = told_both(rt, core, plain, event)?;
    }
    Ok(())
}

// One run of both machines, whose answers are drawn.
fn compare(
    rt: &impl Abort,
    alloc: Global,
    units: u32,
    lanes: u8,
    keep: bool,
    draw: &mut Draw,
) -> Result<(), AllocError> {
    assert!(rt; units <= 64 && 0 < lanes && lanes <= 64);
    let (mut core, first) = Core::new(alloc, units, lanes, keep)?;
    let mut plain = Plain::new(alloc, units, lanes, keep);
    let other = plain.next(None)?;
    assert!(rt; first == other && same(&core, &plain));
    run_both(rt, alloc, first, &mut core, &mut plain, draw)?;
    assert!(rt; core.finished() && plain.finished());
    let failure = plain.failure();
    let failure = if failure < units { Some(failure) } else { None };
    assert!(rt; core.first_failure() == failure && plain.is_covered());
    Ok(())
}

#[test]
fn beside_the_plain_one(rt: HostRuntime) -> Result<(), Fail> {
    for seed in 0..600u64 {
        let failing = match seed % 4 {
            0 => 0,
            1 => 3,
            2 => 15,
            _ => 40,
        };
        let mut draw = Draw {
            state: seed,
            failing,
        };
        let units = draw.below(40) as u32;
        let lanes = draw.below(64) as u8 + 1;
        let few = draw.below(6) as u8 + 1;
        let lanes = if seed % 2 == 0 { lanes } else { few };
        compare(&rt, rt.alloc(), units, lanes, seed % 3 == 0, &mut draw)?;
    }
    Ok(())
}

#[test]
fn a_long_run(rt: HostRuntime) -> Result<(), Fail> {
    let (mut core, mut actions) = Core::new(rt.alloc(), 65536, 64, false)?;
    let mut draw = Draw {
        state: 1,
        failing: 0,
    };
    let mut outs = Vec::new(rt.alloc());
    for _ in 0..8 * 65536u32 {
        note(&mut outs, &actions)?;
        if outs.is_empty() {
            break;
        }
        let at = draw.below(outs.len());
        actions = told(&rt, &mut core, draw.answer(outs.swap_remove(at)));
    }
    assert!(rt; core.finished());
    assert_eq!(rt; actions, NOTHING);
    assert_eq!(rt; core.first_failure(), None);
    Ok(())
}
