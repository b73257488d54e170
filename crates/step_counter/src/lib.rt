//! A counter of steps that only its own `tick` raises.
//!
//! Whoever hands a piece of work to code that it does not know passes a [`Steps`] along, and sees
//! afterwards how often the work was done: a counter is named by a ledger of its own, so that no
//! other can be put in its place, and its number is read only once it is given up. It stands on
//! std's ledgers alone.
#![tactic(auto)]

ghost use Rattle.std.specs.Prelude.{◌≡◌, ◌+◌, ◌<◌, min, ℕ};

use std::marker::Model;
use std::sync::ledger::{Blank, Book, Ledger, Share};

/// How many steps were taken.
#[derive(Drop)]
pub struct Steps<L: Ledger> {
    count: u64,
    book: Book<L>,
    share: Share<L>,
}

impl<L: Ledger> Model for Steps<L> {
    ghost use Rattle.std.specs.Prelude.{◌≡◌, ◌<◌, min, ℕ};

    ghost Value = { ℕ };

    ghost view = { λ s. s.book.total };

    ghost invariant = { λ s. (0 < s.share.parts) × (s.count ≡ min s.book.total 18446744073709551615) };
}

impl<L: Ledger> Steps<L> {
    /// A counter of this ledger, which is at none.
    pub fn new(blank: Blank) -> Steps<L>
        requires { (blank.name ≡ L.name) × (blank.parts ≡ L.parts) × (0 < blank.parts) }
        ensures { result ≡ 0 }
    {
        let (book, share) = blank.open::<L>();
        Steps {
            count: 0,
            book,
            share,
        }
    }

    /// Counts a step.
    pub fn tick(&mut self)
        ensures { self.new ≡ self.old + 1 }
    {
        self.book.add(&mut self.share, 1);
        self.count = self.count.saturating_add(1);
    }

    /// How many steps were taken, or the last value of a `u64` where they were more.
    pub fn taken(self) -> u64
        ensures { result ≡ min self 18446744073709551615 }
    {
        let Steps {
            count: steps,
            book: _,
            share: _,
        } = self;
        steps
    }
}

#[cfg(test)]
mod tests;
