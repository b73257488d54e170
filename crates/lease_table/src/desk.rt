//! The desk has the shares that nobody was lent, and alone changes the number of tokens held. A
//! token is taken from its pool first and counted by `took` afterwards, and `gave` comes before the
//! pool's give, so that the word never counts a token that is not held.
//!
//! A desk keeps 64 handles on its table, one for each lease that can be out at once, so that
//! neither `lend` nor `spend` takes memory. Beside its seat, whose view proofs alone see, it keeps
//! the two numbers that callers ask for.
ghost use Rattle.std.specs.Prelude.{◌≡◌, ◌+◌, ◌<◌, ◌≤◌, Some, None, IfOk, All, vec_len, vec_capacity};
ghost use Rattle.counting.specs.Count.{times};
ghost use Rattle.lease_table.specs.Reading.{IsBegunIfAny, AllBegun};
ghost use Rattle.lease_table.specs.Jobs.{IsOut};
ghost use Rattle.lease_table.specs.Desk.{IsFresh, IsAtRest, after_took, after_gave, after_lend, after_spend};

use crate::lease::Lease;
use crate::mark::Mark;
use crate::reading::TOKEN;
use crate::steps::{Give, LEASE_WORD, Lend, Look, NAME_WORD, Name, Spend, Take};
use crate::view::View;
use atomic_table::Seat;
use std::alloc::{AllocError, Global};
use std::marker::Model;

/// At most this many jobs run at once: one on the tool's own slot, and 63 on tokens.
const SLOTS: usize = 64;

/// Who counts the tokens and lends the shares. It must be ended by `close`.
pub struct Desk {
    table: Mark,
    handles: Vec<Mark>,
    seat: Seat<(), View>,
    held: u8,
    share: u8,
}

impl Model for Desk {
    ghost use Rattle.std.specs.Prelude.{◌≡◌, All, vec_len, vec_capacity};
    ghost use Rattle.lease_table.specs.Desk.{DeskState, state_of, desk_of, IsDesk};

    ghost Value = { DeskState };

    ghost view = { λ d. state_of d.seat.table_id (desk_of d.seat.me.0) };

    ghost invariant = { λ d. IsDesk d.table d.seat.table_id d.seat.me d.held d.share (vec_len d.handles) (vec_capacity d.handles) × All (λ h. h ≡ d.table) d.handles.items };
}

fn handles_on(alloc: Global, table: &Mark) -> Result<Vec<Mark>, AllocError>
    ensures { IfOk result (λ v. (vec_len v ≡ 64) × (64 ≤ vec_capacity v) × All (λ h. h ≡ table.now) v.items) }
{
    let mut handles = Vec::with_capacity(alloc, SLOTS)?;
    for count in 0..SLOTS {
        handles.push_reserved(table.again()?);
    }
    Ok(handles)
}

/// Where a desk comes from.
pub struct Leases;

impl Leases {
    /// A desk with a table of its own, one share and nothing held.
    pub fn new(alloc: Global) -> Result<Desk, AllocError>
        ensures { IfOk result (λ desk. IsFresh desk) }
    {
        let (table, seat) = Mark::open(alloc)?;
        let handles = handles_on(alloc, &table)?;
        Ok(Desk {
            table,
            handles,
            seat,
            held: 0,
            share: 1,
        })
    }
}

impl Desk {
    /// The tokens held.
    pub fn held(&self) -> u8
        ensures held { result ≡ self.now.held }
        ensures most { result ≤ 63 }
        ensures high { result ≤ self.now.peak }
    {
        self.held
    }

    /// The shares that are at the desk. Where that is all that there are, the desk is at rest.
    pub fn share(&self) -> u8
        ensures share { result ≡ self.now.share }
        ensures most { result ≤ self.now.held + 1 }
        ensures rest { result ≡ self.now.held + 1 → IsAtRest self.now }
    {
        self.share
    }

    /// A handle that tells which table the desk's is.
    pub fn mark(&self) -> Result<Mark, AllocError>
        ensures { IfOk result (λ mark. mark ≡ self.now.table) }
    {
        self.table.again()
    }

    /// Counts a token that was taken.
    pub fn took(&mut self)
        requires { self.old.held < 63 }
        ensures { self.new ≡ after_took self.old }
    {
        self.table
            .shared()
            .fetch_add::<Take>(&mut self.seat, LEASE_WORD, TOKEN);
        self.held += 1;
        self.share += 1;
    }

    /// Counts off a token that is about to be given back.
    pub fn gave(&mut self)
        requires held { 1 ≤ self.old.held }
        requires share { 1 ≤ self.old.share }
        ensures desk { self.new ≡ after_gave self.old }
        ensures fall { self.new.peak ≤ self.old.peak }
    {
        self.table
            .shared()
            .fetch_sub::<Give>(&mut self.seat, LEASE_WORD, TOKEN);
        self.held -= 1;
        self.share -= 1;
    }

    /// Moves a share into a lease without a job.
    pub fn lend(&mut self) -> Lease
        requires { 1 ≤ self.old.share }
        ensures desk { self.new ≡ after_lend None self.old }
        ensures table { result.table ≡ self.old.table }
        ensures job { result.job ≡ None }
        ensures last { result.last ≡ None }
    {
        let Some(table) = self.handles.pop() else {
            unreachable!()
        };
        let seat = self.table.shared().split_seat::<Lend>(&mut self.seat);
        self.share -= 1;
        Lease {
            table,
            seat,
            job: None,
        }
    }

    /// Moves a share into a lease for this job.
    pub fn lend_for(&mut self, job: u32) -> Lease
        requires share { 1 ≤ self.old.share }
        requires absent { times job self.old.out ≡ 0 }
        ensures desk { self.new ≡ after_lend (Some job) self.old }
        ensures table { result.table ≡ self.old.table }
        ensures job { result.job ≡ Some job }
        ensures last { result.last ≡ None }
    {
        let Some(table) = self.handles.pop() else {
            unreachable!()
        };
        self.table
            .shared()
            .swap::<Name>(&mut self.seat, NAME_WORD, u64::from(job));
        let seat = self.table.shared().split_seat::<Lend>(&mut self.seat);
        self.share -= 1;
        Lease {
            table,
            seat,
            job: Some(job),
        }
    }

    /// Takes a lease back. The load after the join tells what the rule says of it: its job, if it
    /// has one, was out, and each word that the desk has seen is one that a begin step left. In the
    /// lease's own word no more were held than since all shares were last at the desk.
    pub fn spend(&mut self, lease: Lease)
        requires { lease.table ≡ self.old.table }
        ensures desk { self.new ≡ after_spend lease self.old }
        ensures was_out { IsOut lease.job self.old.out }
        ensures last { IsBegunIfAny self.old.peak lease.last }
        ensures seen { AllBegun self.new.top self.new.seen }
        ensures fall { self.new.peak ≤ self.old.peak }
    {
        let Lease {
            table,
            seat,
            job: _,
        } = lease;
        self.table.shared().join_seat::<Spend>(&mut self.seat, seat);
        self.table.shared().load::<Look>(&mut self.seat, LEASE_WORD);
        self.share += 1;
        self.handles.push_reserved(table);
    }

    /// Ends the table. No token is held and no lease is out.
    pub fn close(self)
        requires held { self.held ≡ 0 }
        requires share { self.share ≡ 1 }
    {
        let Desk {
            table,
            handles,
            seat,
            held: _,
            share: _,
        } = self;
        drop(handles);
        drop(seat);
        drop(table);
    }
}
