//! A lease is one share, which the desk has given up. It may go to another thread and begin there,
//! and is then busy; a busy lease ends and is a lease again, for the same job, and keeps the word
//! that its last begin step left. One that is dropped keeps its share away from the desk for good.
ghost use Rattle.std.specs.Prelude.{◌≡◌, ◌≤◌, ◌+◌, Some, None, true, false, IfOk};
ghost use Rattle.lease_table.specs.Reading.{reading};

use crate::mark::Mark;
use crate::reading::{Reading, TOKEN};
use crate::steps::{Begin, End, LEASE_WORD, Stand};
use crate::view::View;
use atomic_table::Seat;
use std::alloc::{AllocError, Global};
use std::marker::Model;

/// A share that a desk has lent, for a job or for none. It may begin.
#[derive(Drop)]
pub struct Lease {
    pub(crate) table: Mark,
    pub(crate) seat: Seat<(), View>,
    pub(crate) job: Option<u32>,
}

impl Model for Lease {
    ghost use Rattle.std.specs.Prelude.{false};
    ghost use Rattle.lease_table.specs.Lease.{LeaseState, lease_state, lease_of, IsLease};

    ghost Value = { LeaseState };

    ghost view = { λ l. lease_state l.seat.table_id (lease_of l.seat.me.0) };

    ghost invariant = { λ l. IsLease l.table l.seat.table_id l.seat.me l.job false };
}

/// A lease that has begun. A job's work asks for one.
#[derive(Drop)]
pub struct Busy {
    table: Mark,
    seat: Seat<(), View>,
    job: Option<u32>,
    alone: bool,
}

impl Model for Busy {
    ghost use Rattle.std.specs.Prelude.{true};
    ghost use Rattle.lease_table.specs.Lease.{BusyState, busy_state, lease_of, IsLease};

    ghost Value = { BusyState };

    ghost view = { λ b. busy_state b.seat.table_id (lease_of b.seat.me.0) b.alone };

    ghost invariant = { λ b. IsLease b.table b.seat.table_id b.seat.me b.job true };
}

impl Lease {
    /// The job that the lease was lent for.
    pub fn job(&self) -> Option<u32>
        ensures { result ≡ self.now.job }
    {
        self.job
    }

    /// Adds one to the running jobs, and answers the word as this step left it.
    pub fn begin(self) -> (Busy, Reading)
        ensures table { result.0.table ≡ self.table }
        ensures job { result.0.job ≡ self.job }
        ensures alone { result.0.alone ≡ false }
        ensures word { result.0.word ≡ result.1 }
        ensures bound { (1 ≤ result.1.running) × (result.1.running ≤ result.1.held + 1) }
        ensures most { result.1.held ≤ 63 }
    {
        let Lease {
            table,
            mut seat,
            job,
        } = self;
        let word = table.shared().fetch_add::<Begin>(&mut seat, LEASE_WORD, 1);
        let held = (word / TOKEN) as u8;
        let running = (word % TOKEN) as u8 + 1;
        let busy = Busy {
            table,
            seat,
            job,
            alone: false,
        };
        (busy, Reading { held, running })
    }
}

impl Busy {
    /// A busy lease of a table of its own, with its one share and nothing else on it: no token is held
    /// and no other job runs. It is for work that is done one job at a time and needs no desk.
    pub fn alone(alloc: Global) -> Result<Busy, AllocError>
        ensures { IfOk result (λ busy. (busy.alone ≡ true) × (busy.job ≡ None) × (busy.word ≡ reading 0 1)) }
    {
        let (table, mut seat) = Mark::open(alloc)?;
        table.shared().fetch_add::<Stand>(&mut seat, LEASE_WORD, 1);
        Ok(Busy {
            table,
            seat,
            job: None,
            alone: true,
        })
    }

    /// Ends a busy lease that `alone` made, and its table with it.
    pub fn leave(self)
        requires { self.alone ≡ true }
    {
        drop(self);
    }

    /// Takes one from the running jobs.
    pub fn end(self) -> Lease
        ensures table { result.table ≡ self.table }
        ensures job { result.job ≡ self.job }
        ensures last { result.last ≡ Some self.word }
    {
        let Busy {
            table,
            mut seat,
            job,
            alone: _,
        } = self;
        table.shared().fetch_sub::<End>(&mut seat, LEASE_WORD, 1);
        Lease { table, seat, job }
    }
}
