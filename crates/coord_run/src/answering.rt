//! The steps that answer an action: a take and a give of the pool, a generation, and a job's result.
//! Each tells the coordinator the one event that came of it, and says what is due then.
//!
//! The share that pays for a step is moved before the step is made and back after it: a byte is taken
//! from the pool and then counted by the desk, and is counted off before it is given; a lease that names
//! the unit is lent before the unit is generated, and spent before its outcome is told.
ghost use Rattle.std.specs.Prelude.{◌≡◌, ◌+◌, ◌<◌, ◌≤◌, Some, []};
ghost use Rattle.counting.specs.Count.{times};
ghost use Rattle.lease_table.specs.Reading.{IsBegun};
ghost use Rattle.lease_table.specs.Desk.{after_spend, after_lend};
ghost use Rattle.coord_core.specs.Journal.{jobs_by};
ghost use Rattle.coord_run.specs.Meaning.{Answers};
ghost use Rattle.coord_run.specs.Tied.{CanAsk, CanGive, KeepsPool, CanGenerate, KeepsWork, CanCollect, KeepsJobs};

use crate::books::Books;
use crate::driven::Made;
use crate::gate::Gate;
use crate::lanes::Lanes;
use crate::message::Done;
use crate::rules::Naming;
use crate::work::Work;
use coord_core::{Actions, Event};
use lar_bytes::{Bytes, OrMemory};
use lease_table::{Desk, Reading};
use std::alloc::Global;
use std::sync::Wait;
use token_pool::{Given, Take, TokenPool};

/// Takes a byte from the pool, which the coordinator asked for.
pub fn take<P: Drop, F: Drop, Q: TokenPool, R: Wait>(
    rt: &R,
    books: &mut Books<P, F>,
    desk: &mut Desk,
    pool: &mut Q,
) -> Actions
    requires { CanAsk books.old desk.old (Q.told pool.old) }
    ensures { KeepsPool books.old desk.old (Q.told pool.old) books.new (jobs_by result) desk.new (Q.told pool.new) }
{
    match pool.try_take(rt) {
        Take::Byte(byte) => {
            desk.took();
            books.next(Event::Took(byte), None)
        }
        Take::Empty => books.next(Event::Empty, None),
        Take::Failed => books.next(Event::TakeFault, None),
    }
}

/// Gives a byte back to the pool.
pub fn give<P: Drop, F: Drop, Q: TokenPool, R: Wait>(
    rt: &R,
    books: &mut Books<P, F>,
    desk: &mut Desk,
    pool: &mut Q,
    byte: u8,
) -> Actions
    requires { CanGive byte books.old desk.old (Q.told pool.old) }
    ensures { KeepsPool books.old desk.old (Q.told pool.old) books.new (jobs_by result) desk.new (Q.told pool.new) }
{
    desk.gave();
    match pool.give(rt, byte) {
        Given::Done => books.next(Event::Gave(byte), None),
        Given::Failed => {
            books.lose(byte);
            books.next(Event::GiveFault(byte), None)
        }
    }
}

// Generates the unit, under a lease that names it.
fn generate_under<W: Work>(
    alloc: Global,
    work: &W,
    desk: &mut Desk,
    unit: u32,
) -> (Reading, Result<(W::Part, u32), OrMemory<W::Fault>>)
    requires table { desk.old.table ≡ (W.meaning work.now).table }
    requires share { 1 ≤ desk.old.share }
    requires absent { times unit desk.old.out ≡ 0 }
    requires unit { unit < (W.meaning work.now).count }
    ensures desk { desk.new ≡ after_spend (record { table = desk.old.table; job = Some unit; last = Some result.0 }) (after_lend (Some unit) desk.old) }
    ensures answer { Answers ((W.meaning work.now).generated unit) result.1 }
    ensures last { IsBegun desk.old.peak result.0 }
    ensures fall { desk.new.peak ≤ desk.old.peak }
{
    let lease = desk.lend_for(unit);
    let (mut busy, reading) = lease.begin();
    let answer = work.generate(alloc, unit, &mut busy);
    desk.spend(busy.end());
    (reading, answer)
}

/// Generates the unit that the coordinator wants.
pub fn generate<W: Work>(
    alloc: Global,
    work: &W,
    books: &mut Books<W::Part, W::Fault>,
    desk: &mut Desk,
    unit: u32,
) -> Actions
    requires { CanGenerate (W.meaning work.now) unit books.old desk.old }
    ensures { KeepsWork (W.meaning work.now) books.old desk.old books.new (jobs_by result) desk.new }
{
    let (reading, answer) = generate_under(alloc, work, desk, unit);
    match answer {
        Ok((part, cost)) => {
            books.keep_part(unit, part);
            books.next(Event::Generated(unit, cost), Some(reading))
        }
        Err(OrMemory::Refused(fault)) => {
            books.settle(unit, Made::Refused(fault));
            books.next(Event::GenFailed(unit), Some(reading))
        }
        Err(OrMemory::Memory) => {
            books.settle(unit, Made::Wanted);
            books.next(Event::Wanted(unit), Some(reading))
        }
    }
}

/// A result that came in.
struct Received<F> {
    unit: u32,
    reading: Reading,
    makes: u64,
    outcome: Result<Bytes, OrMemory<F>>,
}

// The next result. Its lease is spent, so its unit was out, and its outcome is the definition's.
fn receive<W: Work, G: Gate, J: Naming<W>, R: Wait>(
    rt: &R,
    desk: &mut Desk,
    lanes: &mut Lanes<W, G, J>,
) -> Received<W::Fault>
    requires table { desk.old.table ≡ (W.meaning lanes.old.work).table }
    requires waiting { 1 ≤ lanes.old.waiting }
    ensures out { times result.unit desk.old.out ≡ 1 }
    ensures desk { desk.new ≡ after_spend (record { table = desk.old.table; job = Some result.unit; last = Some result.reading }) desk.old }
    ensures last { IsBegun desk.old.peak result.reading }
    ensures fall { desk.new.peak ≤ desk.old.peak }
    ensures work { lanes.new.work ≡ lanes.old.work }
    ensures waiting { lanes.new.waiting + 1 ≡ lanes.old.waiting }
    ensures once { result.makes ≡ 1 }
    ensures answer { Answers ((W.meaning lanes.old.work).made result.unit) result.outcome }
{
    let Done {
        unit,
        lease,
        reading,
        makes,
        outcome,
    } = lanes.collect(rt);
    desk.spend(lease);
    Received {
        unit,
        reading,
        makes,
        outcome,
    }
}

/// Takes the next result in.
pub fn collect<W: Work, G: Gate, J: Naming<W>, R: Wait>(
    rt: &R,
    books: &mut Books<W::Part, W::Fault>,
    desk: &mut Desk,
    lanes: &mut Lanes<W, G, J>,
) -> Actions
    requires { CanCollect (W.meaning lanes.old.work) books.old desk.old lanes.old.waiting }
    ensures work { lanes.new.work ≡ lanes.old.work }
    ensures keeps { KeepsJobs (W.meaning lanes.old.work) books.old [] desk.old lanes.old.waiting books.new (jobs_by result) desk.new lanes.new.waiting }
{
    let Received {
        unit,
        reading,
        makes,
        outcome,
    } = receive(rt, desk, lanes);
    books.count(makes);
    match outcome {
        Ok(bytes) => {
            books.settle(unit, Made::Made(bytes));
            books.next(Event::Made(unit), Some(reading))
        }
        Err(OrMemory::Refused(fault)) => {
            books.settle(unit, Made::Refused(fault));
            books.next(Event::MakeFailed(unit), Some(reading))
        }
        Err(OrMemory::Memory) => {
            books.settle(unit, Made::Wanted);
            books.next(Event::Wanted(unit), Some(reading))
        }
    }
}
