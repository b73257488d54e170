//! The jobs that the coordinator starts: each is sent to the lanes with its part and with a lease that
//! names its unit.
ghost use Rattle.std.specs.Prelude.{◌≡◌, ◌+◌, ◌<◌, ◌≤◌, Some, None, [], length, option_to_list};
ghost use Rattle.counting.specs.Count.{times};
ghost use Rattle.lease_table.specs.Desk.{after_lend};
ghost use Rattle.coord_core.specs.Journal.{jobs_by, unit_by, lent_by};
ghost use Rattle.coord_run.specs.Books.{parted};
ghost use Rattle.coord_run.specs.Tied.{HasPart, CanStart, Starts, CanFollow, KeepsJobs};

use crate::books::Books;
use crate::gate::Gate;
use crate::lanes::Lanes;
use crate::message::Job;
use crate::rules::Naming;
use crate::work::Work;
use coord_core::{Actions, Main};
use lease_table::Desk;
use std::sync::Wait;

// Dispatches the unit: takes its part, lends a lease that names it, and sends both out.
fn dispatch<W: Work, G: Gate, J: Naming<W>, R: Wait>(
    rt: &R,
    books: &mut Books<W::Part, W::Fault>,
    desk: &mut Desk,
    lanes: &mut Lanes<W, G, J>,
    unit: u32,
)
    requires table { desk.old.table ≡ (W.meaning lanes.old.work).table }
    requires share { 1 ≤ desk.old.share }
    requires absent { times unit desk.old.out ≡ 0 }
    requires unit { unit < (W.meaning lanes.old.work).count }
    requires width { unit < length books.old.parts }
    requires part { HasPart (W.meaning lanes.old.work) books.old.parts unit }
    requires room { lanes.old.waiting < 64 }
    ensures work { lanes.new.work ≡ lanes.old.work }
    ensures waiting { lanes.new.waiting ≡ lanes.old.waiting + 1 }
    ensures books { books.new ≡ parted unit None books.old }
    ensures desk { desk.new ≡ after_lend (Some unit) desk.old }
{
    let part = books.take_part(unit);
    let lease = desk.lend_for(unit);
    lanes.send(rt, Job { unit, part, lease });
}

// Dispatches the unit of the job, if there is one.
fn dispatch_if_any<W: Work, G: Gate, J: Naming<W>, R: Wait>(
    rt: &R,
    books: &mut Books<W::Part, W::Fault>,
    desk: &mut Desk,
    lanes: &mut Lanes<W, G, J>,
    job: Option<u32>,
)
    requires { CanStart (W.meaning lanes.old.work) books.old job desk.old lanes.old.waiting }
    ensures work { lanes.new.work ≡ lanes.old.work }
    ensures starts { Starts (W.meaning lanes.old.work) books.old job desk.old lanes.old.waiting books.new desk.new lanes.new.waiting }
{
    if let Some(unit) = job {
        dispatch(rt, books, desk, lanes, unit);
    }
}

// The unit that a token's job makes.
fn started(start: Option<(u8, u32)>) -> Option<u32>
    ensures { option_to_list result ≡ unit_by start }
{
    match start {
        Some((_, unit)) => Some(unit),
        None => None,
    }
}

// The unit that the implicit slot is lent to.
fn lent(main: Main) -> Option<u32>
    ensures { option_to_list result ≡ lent_by main }
{
    match main {
        Main::Lend(unit) => Some(unit),
        _ => None,
    }
}

/// Starts the jobs of the actions.
pub fn follow<W: Work, G: Gate, J: Naming<W>, R: Wait>(
    rt: &R,
    books: &mut Books<W::Part, W::Fault>,
    desk: &mut Desk,
    lanes: &mut Lanes<W, G, J>,
    actions: Actions,
)
    requires { CanFollow (W.meaning lanes.old.work) books.old (jobs_by actions) desk.old lanes.old.waiting }
    ensures work { lanes.new.work ≡ lanes.old.work }
    ensures keeps { KeepsJobs (W.meaning lanes.old.work) books.old (jobs_by actions) desk.old lanes.old.waiting books.new [] desk.new lanes.new.waiting }
{
    dispatch_if_any(rt, books, desk, lanes, started(actions.start));
    dispatch_if_any(rt, books, desk, lanes, lent(actions.main));
}
