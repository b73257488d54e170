//! The books of a session: the coordinator's rule with the journal of what it was told, what came of
//! each unit, the parts that wait to be made, the bytes that were lost and the tally. Each call changes
//! one thing. All memory is taken by `new`.
ghost use Rattle.std.specs.Prelude.{◌≡◌, ◌+◌, ◌*◌, ◌<◌, ◌≤◌, [], true, Some, None, IfOk, IsSome, length, vec_len, All};
ghost use Rattle.coord_core.specs.Effect.{effect};
ghost use Rattle.coord_core.specs.Decide.{may_ask, actions_of};
ghost use Rattle.coord_core.specs.Run.{first, is_awaited, is_finished};
ghost use Rattle.coord_run.specs.declared.driven.Made.TheVariants.{Skipped};
ghost use Rattle.coord_run.specs.Books.{state_of, ask_first_of, fed, settled, parted, part_at, counted, losing, IsNew};
ghost use Rattle.coord_run.specs.Pending.{IsNext};

use crate::driven::{Driven, Entry, Made};
use crate::pending::{Pending, Turn};
use coord_core::{Actions, Core, Event, Terms};
use lar_bytes::Bytes;
use lease_table::Reading;
use std::alloc::{AllocError, Global};
use std::marker::Model;
use std::mem;

/// The books of a session.
#[derive(Drop)]
pub struct Books<P, F> {
    core: Core,
    journal: Vec<Entry>,
    outcomes: Vec<Made<F>>,
    parts: Vec<Option<P>>,
    lost: Vec<u8>,
    tally: u64,
    pending: Pending,
}

impl<P, F> Model for Books<P, F> {
    ghost use Rattle.std.specs.Prelude.{vec_len, vec_capacity};
    ghost use Rattle.coord_run.specs.Books.{BooksState, books_state, IsBooks};

    ghost Value = { BooksState P F };

    ghost view = { λ b. books_state b.core b.journal.items b.outcomes.items b.parts.items b.lost.items b.tally };

    ghost invariant = { λ b. IsBooks b.core b.journal.items (vec_capacity b.journal) (vec_len b.outcomes) (vec_len b.parts) (vec_capacity b.lost) b.pending };
}

// So many units, of which nothing came yet.
fn skipped<F: Drop>(alloc: Global, n: u32) -> Result<Vec<Made<F>>, AllocError>
    ensures { IfOk result (λ v. (vec_len v ≡ n) × All (λ o. o ≡ Skipped) v.items) }
{
    let mut outcomes = Vec::with_capacity(alloc, n as usize)?;
    for unit in 0..n {
        outcomes.push_reserved(Made::Skipped);
    }
    Ok(outcomes)
}

// So many units, of which nothing was generated yet.
fn no_parts<P: Drop>(alloc: Global, n: u32) -> Result<Vec<Option<P>>, AllocError>
    ensures { IfOk result (λ v. vec_len v ≡ n) }
{
    let mut parts = Vec::with_capacity(alloc, n as usize)?;
    for unit in 0..n {
        parts.push_reserved(None);
    }
    Ok(parts)
}

impl<P: Drop, F: Drop> Books<P, F> {
    /// New books, and what is to be done first.
    pub fn new(alloc: Global, terms: Terms) -> Result<(Books<P, F>, Actions), AllocError>
        requires units { terms.units ≤ 65536 }
        requires some_lane { 0 < terms.lanes }
        requires most_lanes { terms.lanes ≤ 64 }
        ensures { IfOk result (λ r. IsNew terms r.0 × (r.1 ≡ actions_of true (first terms))) }
    {
        let Terms { units, lanes, keep } = terms;
        let outcomes = skipped(alloc, units)?;
        let parts = no_parts(alloc, units)?;
        let journal = Vec::with_capacity(alloc, 8 * units as usize)?;
        let lost = Vec::with_capacity(alloc, 3 * units as usize)?;
        let (core, actions) = Core::new(alloc, units, lanes, keep)?;
        let books = Books {
            core,
            journal,
            outcomes,
            parts,
            lost,
            tally: 0,
            pending: Pending::first(&actions),
        };
        Ok((books, actions))
    }

    /// What the session did.
    pub fn into_driven(self) -> Driven<F>
        ensures outcomes { result.outcomes.items ≡ self.outcomes }
        ensures journal { result.journal.items ≡ self.entries }
        ensures lost { result.lost ≡ self.lost }
        ensures tally { result.tally ≡ self.tally }
    {
        let Books {
            core,
            journal,
            outcomes,
            parts,
            lost,
            tally,
            pending: _,
        } = self;
        drop((core, parts));
        Driven {
            outcomes,
            journal,
            lost: Bytes::from_vec(lost),
            tally,
        }
    }

    /// What is answered next.
    pub fn turn(&self) -> Turn
        ensures { IsNext (state_of self.now) (ask_first_of self.now) result }
    {
        self.pending.turn()
    }

    /// Whether nothing is left to do.
    pub fn is_finished(&self) -> bool
        ensures { result ≡ is_finished (state_of self.now) }
    {
        self.core.finished()
    }

    /// Notes what came of the unit.
    pub fn settle(&mut self, unit: u32, outcome: Made<F>)
        requires { unit < length self.old.outcomes }
        ensures { self.new ≡ settled unit outcome self.old }
    {
        self.outcomes[unit as usize] = outcome;
    }

    /// Keeps what was generated of the unit.
    pub fn keep_part(&mut self, unit: u32, part: P)
        requires { unit < length self.old.parts }
        ensures { self.new ≡ parted unit (Some part) self.old }
    {
        self.parts[unit as usize] = Some(part);
    }

    /// Hands out what was generated of the unit.
    pub fn take_part(&mut self, unit: u32) -> P
        requires width { unit < length self.old.parts }
        requires there { IsSome (part_at self.old.parts unit) }
        ensures part { part_at self.old.parts unit ≡ Some result }
        ensures books { self.new ≡ parted unit None self.old }
    {
        match mem::replace(&mut self.parts[unit as usize], None) {
            Some(part) => part,
            None => unreachable!(),
        }
    }

    /// Counts how often a job made its unit.
    pub fn count(&mut self, makes: u64)
        requires { self.old.tally + makes < 18446744073709551616 }
        ensures { self.new ≡ counted makes self.old }
    {
        self.tally += makes;
    }

    /// Notes a byte that could not be given back.
    pub fn lose(&mut self, byte: u8)
        requires { length self.old.lost < 3 * self.old.terms.units }
        ensures { self.new ≡ losing byte self.old }
    {
        self.lost.push_reserved(byte);
    }

    /// Tells the coordinator the event, and answers what is to be done then.
    pub fn next(&mut self, event: Event, reading: Option<Reading>) -> Actions
        requires awaited { is_awaited (state_of self.old) event ≡ true }
        requires giving { (effect event (state_of self.old)).giving ≡ [] }
        ensures state { self.new ≡ fed event reading self.old }
        ensures actions { result ≡ actions_of (may_ask event) (effect event (state_of self.old)) }
    {
        let actions = self.core.next(event);
        self.journal.push_reserved(Entry { event, reading });
        self.pending = self.pending.after(event, &actions);
        actions
    }
}
