//! Worked runs over a work that answers by a table. Jobs run in real lanes, so the order in which
//! their results come is not fixed: what a run answers of each unit is.
ghost use Rattle.std.specs.Prelude.{◌≡◌, ◌<◌, ◌≤◌, length, vec_len};

mod drawn;
mod faults;
mod gates;
mod table;

use crate::gate::{FreeGate, Gate};
use crate::{Driven, Entry, Made, drive};
use coord_core::Event;
use lease_table::{Desk, Leases, Reading};
use std::alloc::{AllocError, Global};
use std::sync::{Arc, Wait};
use std::test::*;
use std::thread::Threads;
use table::{Plan, Table};
use token_pool::{MemoryPool, TokenPool};

/// What came of a unit of the table.
#[derive(Clone, Copy, PartialEq, Eq, Debug, Drop)]
enum Said {
    Byte(u8),
    Refused(u8),
    Wanted,
    Skipped,
}

fn said_of(outcome: &Made<u8>) -> Said {
    match outcome {
        Made::Made(bytes) => match bytes.as_slice().first() {
            Some(byte) => Said::Byte(*byte),
            None => Said::Skipped,
        },
        Made::Refused(fault) => Said::Refused(*fault),
        Made::Wanted => Said::Wanted,
        Made::Skipped => Said::Skipped,
    }
}

// What came of the unit.
fn of(driven: &Driven<u8>, unit: usize) -> Said {
    match driven.outcomes.get(unit) {
        Some(outcome) => said_of(outcome),
        None => Said::Skipped,
    }
}

// Runs the table's units on the desk, which has all its shares and no token.
fn driven_on<Q: TokenPool, G: Gate, R: Threads + Wait + Copy + Send + Sync + 'static>(
    rt: &R,
    alloc: Global,
    plans: Vec<Plan>,
    gate: &Arc<G>,
    pool: &mut Q,
    desk: &mut Desk,
    lanes: u8,
    keep: bool,
) -> Result<Driven<u8>, AllocError>
    requires few { vec_len plans ≤ 65536 }
    requires some_lane { 0 < lanes }
    requires most_lanes { lanes ≤ 64 }
    requires held { desk.old.held ≡ 0 }
    requires share { desk.old.share ≡ 1 }
    ensures { (desk.new.held ≡ 0) × (desk.new.share ≡ 1) }
{
    let mark = desk.mark()?;
    let work = Arc::new(alloc, Table { mark, plans })?;
    drive(rt, alloc, &work, gate, pool, desk, lanes, keep)
}

// Runs the table's units.
fn driven<Q: TokenPool, G: Gate, R: Threads + Wait + Copy + Send + Sync + 'static>(
    rt: &R,
    alloc: Global,
    plans: Vec<Plan>,
    gate: &Arc<G>,
    pool: &mut Q,
    lanes: u8,
    keep: bool,
) -> Result<Driven<u8>, AllocError>
    requires few { vec_len plans ≤ 65536 }
    requires some_lane { 0 < lanes }
    requires most_lanes { lanes ≤ 64 }
{
    let mut desk = Leases::new(alloc)?;
    let driven = driven_on(rt, alloc, plans, gate, pool, &mut desk, lanes, keep);
    desk.close();
    driven
}

// Runs the table's units with these tokens, and shows that all came back.
fn driven_with<R: Threads + Wait + Copy + Send + Sync + 'static>(
    rt: &R,
    alloc: Global,
    plans: &[Plan],
    bytes: &[u8],
    lanes: u8,
    keep: bool,
) -> Result<(Driven<u8>, Vec<u8>), Fail>
    requires few { length plans.now ≤ 65536 }
    requires bytes { length bytes.now ≤ 1024 }
    requires some_lane { 0 < lanes }
    requires most_lanes { lanes ≤ 64 }
{
    let gate = Arc::new(alloc, FreeGate)?;
    let mut pool = MemoryPool::new(rt, alloc, bytes)?;
    let driven = driven(
        rt,
        alloc,
        plans.to_vec(alloc)?,
        &gate,
        &mut pool,
        lanes,
        keep,
    )?;
    Ok((driven, pool.left(rt, alloc)?.into_vec()))
}

const ALONE: Option<Reading> = Some(Reading {
    held: 0,
    running: 1,
});

fn alone(event: Event) -> Entry {
    Entry {
        event,
        reading: ALONE,
    }
}

#[test]
fn two_units_in_one_lane(rt: HostRuntime) -> Result<(), Fail> {
    let plans = [Plan::made(5, 0x10), Plan::made(2, 0x11)];
    let (driven, left) = driven_with(&rt, rt.alloc(), &plans, b"a", 1, false)?;
    let wanted = [
        alone(Event::Generated(0, 5)),
        alone(Event::Made(0)),
        alone(Event::Generated(1, 2)),
        alone(Event::Made(1)),
    ];
    assert_eq!(rt; driven.journal.as_slice(), wanted.as_slice());
    assert_eq!(rt;
        (of(&driven, 0), of(&driven, 1)),
        (Said::Byte(0x10), Said::Byte(0x11))
    );
    assert_eq!(rt; driven.tally, 2);
    assert_eq!(rt; left.as_slice(), b"a".as_slice());
    Ok(())
}

// How many bytes the session took.
fn takes(driven: &Driven<u8>) -> usize {
    driven
        .journal
        .iter()
        .filter(|entry| matches!(entry.event, Event::Took(_)))
        .count()
}

#[test]
fn two_sessions_on_one_desk(rt: HostRuntime) -> Result<(), Fail> {
    let gate = Arc::new(rt.alloc(), FreeGate)?;
    let mut pool = MemoryPool::new(&rt, rt.alloc(), b"abc")?;
    let plans = [Plan::made(5, 0x10), Plan::made(2, 0x11)];
    let (first, second) = (plans.to_vec(rt.alloc())?, plans.to_vec(rt.alloc())?);
    let mut desk = Leases::new(rt.alloc())?;
    let first = driven_on(
        &rt,
        rt.alloc(),
        first,
        &gate,
        &mut pool,
        &mut desk,
        4,
        false,
    );
    let second = driven_on(
        &rt,
        rt.alloc(),
        second,
        &gate,
        &mut pool,
        &mut desk,
        1,
        false,
    );
    desk.close();
    let wanted = [
        alone(Event::Generated(0, 5)),
        alone(Event::Made(0)),
        alone(Event::Generated(1, 2)),
        alone(Event::Made(1)),
    ];
    assert!(rt; takes(&first?) >= 1);
    assert_eq!(rt; second?.journal.as_slice(), wanted.as_slice());
    assert_eq!(rt; pool.left(&rt, rt.alloc())?.as_slice(), b"abc".as_slice());
    Ok(())
}

#[test]
fn no_unit(rt: HostRuntime) -> Result<(), Fail> {
    let (driven, left) = driven_with(&rt, rt.alloc(), &[], b"a", 8, false)?;
    assert!(rt; driven.journal.is_empty() && driven.outcomes.is_empty() && driven.lost.is_empty());
    assert_eq!(rt; driven.tally, 0);
    assert_eq!(rt; left.as_slice(), b"a".as_slice());
    Ok(())
}

#[test]
fn three_units_and_a_token(rt: HostRuntime) -> Result<(), Fail> {
    let plans = [
        Plan::made(9, 0x20),
        Plan::made(4, 0x21),
        Plan::made(7, 0x22),
    ];
    for lanes in [1, 2, 8] {
        let (driven, left) = driven_with(&rt, rt.alloc(), &plans, b"a", lanes, false)?;
        for unit in 0..3usize {
            assert_eq!(rt; of(&driven, unit), Said::Byte(0x20 + unit as u8));
        }
        assert_eq!(rt; driven.tally, 3);
        assert_eq!(rt; left.as_slice(), b"a".as_slice());
    }
    let (driven, _) = driven_with(&rt, rt.alloc(), &plans, b"a", 2, false)?;
    let first = [
        Event::Generated(0, 9),
        Event::Took(b'a'),
        Event::Generated(1, 4),
    ];
    for (entry, event) in driven.journal.iter().zip(first) {
        assert_eq!(rt; entry.event, event);
    }
    Ok(())
}

#[test]
fn the_first_unit_that_fails_is_the_same_in_any_lanes(rt: HostRuntime) -> Result<(), Fail> {
    let plans = [
        Plan::made(1, 0x30),
        Plan::not_made(5, 33),
        Plan::made(3, 0x32),
        Plan::not_generated(30),
    ];
    for lanes in [1, 2, 8] {
        let (driven, left) = driven_with(&rt, rt.alloc(), &plans, b"abb", lanes, false)?;
        assert_eq!(rt; of(&driven, 0), Said::Byte(0x30));
        assert_eq!(rt; of(&driven, 1), Said::Refused(33));
        assert_eq!(rt; left.as_slice(), b"abb".as_slice());
    }
    Ok(())
}

#[test]
fn the_last_unit_alone_fails(rt: HostRuntime) -> Result<(), Fail> {
    let plans = [
        Plan::made(1, 0x30),
        Plan::made(5, 0x31),
        Plan::made(3, 0x32),
        Plan::not_generated(30),
    ];
    for lanes in [1, 2, 8] {
        let (driven, _) = driven_with(&rt, rt.alloc(), &plans, b"abb", lanes, false)?;
        for unit in 0..3usize {
            assert_eq!(rt; of(&driven, unit), Said::Byte(0x30 + unit as u8));
        }
        assert_eq!(rt; of(&driven, 3), Said::Refused(30));
        assert_eq!(rt; driven.tally, 3);
    }
    Ok(())
}
