//! The coordinator: a run's events in, what is to be done out.
//!
//! A unit is generated on the caller's thread, one at a time and in unit order, then waits in the queue,
//! and is made by a job. One job or generation at a time has the implicit slot, which the process has
//! for nothing; every other job is paid by a token. After each event five decisions are made in order:
//! a spare token *passes* to the job on the slot, if that frees the slot for more work; else it *starts*
//! the head of the queue; else it is *given* back. Then the free slot generates the next unit while too
//! little waits, or runs the head of the queue; and last a token is *asked* for, if it would have work
//! and a lane is left for it.
//!
//! The least unit that failed is the bar. From the first failure on nothing is generated, and what waits
//! above the bar is dropped; what is below it is still made, so that the failure that is named at the
//! end does not hang on the order of the answers. A run that *keeps going* does so after a refusal: all
//! units are generated and made, and each refusal is told. Only want of memory lowers its bar.
//! docs/coordinator.md has the whole story, with a run.
//!
//! `board` holds the state and a function for each decision, `queue`, `job` and `giving` its lists.
ghost use Rattle.std.specs.Prelude.{◌≡◌, ◌<◌, ◌≤◌, [], true, IfOk};
ghost use Rattle.coord_core.specs.Effect.{effect};
ghost use Rattle.coord_core.specs.Decide.{may_ask, actions_of};
ghost use Rattle.coord_core.specs.Run.{first, is_awaited, is_finished, Lawful};
ghost use Rattle.coord_core.specs.Journal.{failed, least};

use crate::board::Board;
use crate::event::{Actions, Event};
use crate::terms::Terms;
use std::alloc::{AllocError, Global};
use std::marker::Model;

/// A run of the coordinator.
#[derive(Drop)]
pub struct Core {
    board: Board,
    /// The least unit that failed.
    failure: Option<u32>,
    journal: Vec<Event>,
}

impl Model for Core {
    ghost use Rattle.std.specs.Prelude.{vec_capacity};
    ghost use Rattle.coord_core.specs.Core.{CoreState, core_state, IsCore};
    ghost use Rattle.coord_core.specs.Board.{state_of, HasRoom};

    ghost Value = { CoreState };

    ghost view = { λ c. core_state c.board.terms c.journal.items };

    ghost invariant = { λ c. IsCore (state_of c.board) c.failure c.journal.items (vec_capacity c.journal) × HasRoom c.board };
}

impl Core {
    ghost use Rattle.coord_core.specs.Core.{core_state, terms_of, state_in, after_event};

    /// A run of so many units with so many lanes, and what is to be done first. Where it is to `keep`
    /// going, it does so after a refusal. All the memory of the run is taken here.
    pub fn new(alloc: Global, n: u32, lanes: u8, keep: bool) -> Result<(Core, Actions), AllocError>
        requires units { n ≤ 65536 }
        requires some_lane { 0 < lanes }
        requires most_lanes { lanes ≤ 64 }
        ensures { IfOk result (λ r. (r.0 ≡ core_state (terms_of n lanes keep) []) × (r.1 ≡ actions_of true (first (terms_of n lanes keep)))) }
    {
        let journal = Vec::with_capacity(alloc, 8 * n as usize)?;
        let terms = Terms {
            units: n,
            lanes,
            keep,
        };
        let mut board = Board::new(alloc, terms)?;
        let actions = board.decide(true);
        let core = Core {
            board,
            failure: None,
            journal,
        };
        Ok((core, actions))
    }

    /// Tells the event, and answers what is to be done then.
    pub fn next(&mut self, event: Event) -> Actions
        requires { is_awaited (state_in self.old) event ≡ true }
        ensures journal { self.new ≡ after_event event self.old }
        ensures actions { result ≡ actions_of (may_ask event) (effect event (state_in self.old)) }
    {
        self.board.take_in(event);
        let actions = self.board.decide(event.may_ask());
        self.failure = event.lesser_failure(self.failure);
        self.journal.push_reserved(event);
        actions
    }

    /// Whether the event answers an action that is out.
    pub fn is_awaited(&self, event: &Event) -> bool
        ensures { result ≡ is_awaited (state_in self.now) event.now }
    {
        self.board.is_awaited(event)
    }

    /// Whether no job, generation, ask or give is out. Then nothing is left to do.
    pub fn finished(&self) -> bool
        ensures { result ≡ is_finished (state_in self.now) }
    {
        self.board.is_finished()
    }

    /// The events that it was told, in order: a lawful run.
    pub fn journal(&self) -> &[Event]
        ensures events { result.now ≡ self.now.journal }
        ensures lawful { Lawful self.now.terms self.now.journal }
    {
        &self.journal
    }

    /// The least unit of those that failed or found no memory.
    pub fn first_failure(&self) -> Option<u32>
        ensures { result ≡ least (failed self.now.journal) }
    {
        self.failure
    }
}

#[cfg(test)]
mod tests;
