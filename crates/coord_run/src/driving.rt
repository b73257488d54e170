//! The loop. Jobs that are decided are started at once. Then the action that is out for longest is
//! answered: a byte is given back, a unit generated or a byte asked for; where none is out, the next
//! result of a job is taken in. Each answer is an event, and the coordinator decides what is due then,
//! until it is finished.
//!
//! So a give is answered at once, an ask waits for one generation at most, and while a unit is being
//! generated nothing else is taken in. All memory of the session is taken before the loop begins.
ghost use Rattle.std.specs.Prelude.{◌≡◌, true, false, Some, [], IfOk, OnErr};
ghost use Rattle.std.specs.Arc.{arc_value};
ghost use Rattle.coord_core.specs.Journal.{jobs_by};
ghost use Rattle.coord_core.specs.Run.{is_finished};
ghost use Rattle.coord_core.specs.Core.{terms_of};
ghost use Rattle.coord_run.specs.Books.{state_of};
ghost use Rattle.coord_run.specs.Driven.{IsReady, IsDriven};
ghost use Rattle.coord_run.specs.Tied.{CanRun, Runs};

use crate::answering::{collect, generate, give, take};
use crate::books::Books;
use crate::driven::Driven;
use crate::gate::Gate;
use crate::lanes::Lanes;
use crate::pending::Turn;
use crate::rules::Naming;
use crate::session::Session;
use crate::starting::follow;
use crate::work::Work;
use coord_core::{Actions, Terms};
use lease_table::Desk;
use std::alloc::{AllocError, Global};
use std::marker::Brand;
use std::sync::{Arc, Wait};
use std::thread::Threads;
use token_pool::TokenPool;

// Answers the action that is out for longest, or takes a result in.
fn step<W: Work, G: Gate, J: Naming<W>, Q: TokenPool, R: Wait>(
    rt: &R,
    session: &mut Session<W, G, J>,
    desk: &mut Desk,
    pool: &mut Q,
) -> Actions
    requires ready { CanRun (W.meaning session.old.lanes.work) session.old.books [] desk.old (Q.told pool.old) session.old.lanes.waiting }
    requires going { is_finished (state_of session.old.books) ≡ false }
    ensures work { session.new.lanes.work ≡ session.old.lanes.work }
    ensures keeps { Runs (W.meaning session.old.lanes.work) session.old.books [] desk.old (Q.told pool.old) session.old.lanes.waiting session.new.books (jobs_by result) desk.new (Q.told pool.new) session.new.lanes.waiting }
{
    match session.books.turn() {
        Turn::Give(byte) => give(rt, &mut session.books, desk, pool, byte),
        Turn::Ask => take(rt, &mut session.books, desk, pool),
        Turn::Generate(unit) => {
            let alloc = session.lanes.alloc();
            generate(alloc, session.lanes.work(), &mut session.books, desk, unit)
        }
        Turn::Collect => collect(rt, &mut session.books, desk, &mut session.lanes),
    }
}

// Runs the coordinator to its end.
fn run_to_end<W: Work, G: Gate, J: Naming<W>, Q: TokenPool, R: Wait>(
    rt: &R,
    session: &mut Session<W, G, J>,
    desk: &mut Desk,
    pool: &mut Q,
    first: Actions,
)
    requires { CanRun (W.meaning session.old.lanes.work) session.old.books (jobs_by first) desk.old (Q.told pool.old) session.old.lanes.waiting }
    ensures finished { is_finished (state_of session.new.books) ≡ true }
    ensures keeps { Runs (W.meaning session.old.lanes.work) session.old.books (jobs_by first) desk.old (Q.told pool.old) session.old.lanes.waiting session.new.books [] desk.new (Q.told pool.new) session.new.lanes.waiting }
{
    let mut actions = first;
    for _ in rt.forever() {
        follow(rt, &mut session.books, desk, &mut session.lanes, actions);
        if session.books.is_finished() {
            return;
        }
        actions = step(rt, session, desk, pool);
    }
    unreachable!()
}

// Runs the work's units in lanes of its own, over channels whose rules name the work.
fn drive_named<
    W: Work,
    G: Gate,
    J: Naming<W>,
    Q: TokenPool,
    R: Threads + Wait + Copy + Send + Sync + 'static,
>(
    rt: &R,
    alloc: Global,
    work: &Arc<W>,
    gate: &Arc<G>,
    pool: &mut Q,
    desk: &mut Desk,
    lanes: u8,
    keep: bool,
) -> Result<Driven<W::Fault>, AllocError>
    requires work { J.work ≡ Some (arc_value work.now) }
    requires ready { IsReady (W.meaning (arc_value work.now)) lanes desk.old }
    ensures driven { IfOk result (λ d. IsDriven (W.meaning (arc_value work.now)) (terms_of (W.meaning (arc_value work.now)).count lanes keep) desk.old (Q.told pool.old) d desk.new (Q.told pool.new)) }
    ensures memory { OnErr result ((desk.new ≡ desk.old) × (pool.new ≡ pool.old)) }
{
    let terms = Terms {
        units: work.units(),
        lanes,
        keep,
    };
    let (books, actions) = Books::new(alloc, terms)?;
    let opened = Lanes::<W, G, J>::open(rt, alloc, work, gate, lanes)?;
    // All shares are at the desk, which therefore is at rest.
    desk.share();
    let mut session = Session {
        books,
        lanes: opened,
    };
    run_to_end(rt, &mut session, desk, pool, actions);
    let Session { books, lanes } = session;
    lanes.close(rt);
    Ok(books.into_driven())
}

/// Generates and makes the work's units, in at most so many lanes at once. Jobs beyond the first are
/// paid by bytes of the pool, and each begins and ends on a lease of the desk.
///
/// Where it is to `keep` going, it does so after a refusal: every unit is made, and each refused one has
/// its refusal as its outcome. If not, only the units before the first refused one are sure to be made.
/// In both cases a unit that finds no memory ends the session early.
///
/// Want of memory is answered before any take and any job, with desk and pool as they were. A unit that
/// finds no memory afterwards is `Wanted`. A lane that there is no thread for is left out, and where
/// there is none at all the caller's thread runs the jobs.
pub fn drive<W: Work, G: Gate, Q: TokenPool, R: Threads + Wait + Copy + Send + Sync + 'static>(
    rt: &R,
    alloc: Global,
    work: &Arc<W>,
    gate: &Arc<G>,
    pool: &mut Q,
    desk: &mut Desk,
    lanes: u8,
    keep: bool,
) -> Result<Driven<W::Fault>, AllocError>
    requires { IsReady (W.meaning (arc_value work.now)) lanes desk.old }
    ensures driven { IfOk result (λ d. IsDriven (W.meaning (arc_value work.now)) (terms_of (W.meaning (arc_value work.now)).count lanes keep) desk.old (Q.told pool.old) d desk.new (Q.told pool.new)) }
    ensures memory { OnErr result ((desk.new ≡ desk.old) × (pool.new ≡ pool.old)) }
{
    drive_named::<W, G, Brand, Q, R>(rt, alloc, work, gate, pool, desk, lanes, keep)
}
