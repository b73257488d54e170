//! Pools whose calls fail one after another, and units that are refused or find no memory.
ghost use Rattle.std.specs.Prelude.{◌<◌};

use super::table::{Lacks, Plan};
use super::{Said, driven, driven_with, of};
use crate::Driven;
use crate::gate::FreeGate;
use coord_core::Event;
use std::alloc::Global;
use std::process::Abort;
use std::sync::{Arc, Wait};
use std::test::*;
use std::thread::Threads;
use token_pool::FaultyPool;

fn four() -> [Plan; 4] {
    [
        Plan::made(4, 0x40),
        Plan::made(1, 0x41),
        Plan::made(3, 0x42),
        Plan::made(2, 0x43),
    ]
}

// How many gives failed.
fn gives_that_failed(driven: &Driven<u8>) -> usize {
    driven
        .journal
        .iter()
        .filter(|entry| matches!(entry.event, Event::GiveFault(_)))
        .count()
}

// How many takes failed.
fn takes_that_failed(driven: &Driven<u8>) -> usize {
    driven
        .journal
        .iter()
        .filter(|entry| entry.event == Event::TakeFault)
        .count()
}

#[test]
fn the_only_give_fails(rt: HostRuntime) -> Result<(), Fail> {
    let gate = Arc::new(rt.alloc(), FreeGate)?;
    let mut pool = FaultyPool::new(rt.alloc(), b"b", &[1])?;
    let driven = driven(
        &rt,
        rt.alloc(),
        four().to_vec(rt.alloc())?,
        &gate,
        &mut pool,
        2,
        false,
    )?;
    assert_eq!(rt; driven.lost.as_slice(), b"b".as_slice());
    assert_eq!(rt; pool.owed(b'b'), 1);
    assert_eq!(rt; driven.tally, 4);
    Ok(())
}

#[test]
fn each_call_of_a_pool_fails_once(rt: HostRuntime) -> Result<(), Fail> {
    let gate = Arc::new(rt.alloc(), FreeGate)?;
    for call in 0..8u64 {
        let mut pool = FaultyPool::new(rt.alloc(), b"ab", &[call])?;
        let driven = driven(
            &rt,
            rt.alloc(),
            four().to_vec(rt.alloc())?,
            &gate,
            &mut pool,
            3,
            false,
        )?;
        for unit in 0..4usize {
            assert_eq!(rt; of(&driven, unit), Said::Byte(0x40 + unit as u8));
        }
        let lost = gives_that_failed(&driven);
        let missed = takes_that_failed(&driven);
        assert!(rt; lost.saturating_add(missed) <= 1);
        assert_eq!(rt; driven.lost.len(), lost);
        assert_eq!(rt; pool.owed(b'a').saturating_add(pool.owed(b'b')), lost);
    }
    Ok(())
}

// The four plans, of which this one is another.
fn with(unit: usize, plan: Plan) -> [Plan; 4] {
    let mut plans = four();
    if let Some(place) = plans.get_mut(unit) {
        *place = plan;
    }
    plans
}

// Runs the four units, of which this one is another, and shows what came of it and of those before.
// Where the session keeps going after it, each unit behind it is made too.
fn one_fails<R: Abort + Threads + Wait + Copy + Send + Sync + 'static>(
    rt: &R,
    alloc: Global,
    unit: usize,
    plan: Plan,
    wanted: Said,
    keep: bool,
) -> Result<(), Fail>
    requires { unit < 4 }
{
    let (driven, left) = driven_with(rt, alloc, &with(unit, plan), b"ab", 3, keep)?;
    let goes_on = keep && wanted != Said::Wanted;
    for other in 0..4usize {
        if other < unit || (goes_on && other != unit) {
            assert_eq!(rt; of(&driven, other), Said::Byte(0x40 + other as u8));
        }
    }
    assert_eq!(rt; of(&driven, unit), wanted);
    assert_eq!(rt; left.as_slice(), b"ab".as_slice());
    Ok(())
}

#[test]
fn each_unit_fails_once_in_each_way(rt: HostRuntime) -> Result<(), Fail> {
    let ways = [
        (Plan::not_generated(7), Said::Refused(7)),
        (Plan::not_made(5, 8), Said::Refused(8)),
        (Plan::lacking(Lacks::Generating), Said::Wanted),
        (Plan::lacking(Lacks::Making), Said::Wanted),
    ];
    for unit in 0..4usize {
        for (plan, wanted) in ways {
            one_fails(&rt, rt.alloc(), unit, plan, wanted, false)?;
            one_fails(&rt, rt.alloc(), unit, plan, wanted, true)?;
        }
    }
    Ok(())
}
