//! The rule of the lease table, and the kinds of step that keep it, each with what it tells. The
//! table is made with the desk's seat; a lend splits a lease's seat off it, and a spend joins one
//! into it again. Word 0 is the lease word, and word 1 the name word: a split carries no number, so
//! the desk first swaps the number of a job into the name word, and its view then names the job
//! that the split gives away. Nobody reads the name word.
ghost use Rattle.lease_table.specs.Rule.{Ruled};
ghost use Rattle.lease_table.specs.View.{opened};
ghost use Rattle.lease_table.specs.Steps.{Took, Gave, Named, Began, Stood, Ended, Looked, desk_side, lease_side, both_sides};
ghost use Rattle.lease_table.specs.declared.view.View.TheVariants.{Spent};

use crate::view::View;
use atomic_table::{Join, Play, Split, Table, TableRule};
use std::alloc::Global;

/// The table of one desk.
pub type Words = Table<(), View, (), LeaseRule, Global>;

pub(crate) const LEASE_WORD: usize = 0;

pub(crate) const NAME_WORD: usize = 1;

pub struct LeaseRule;

impl TableRule<(), View, ()> for LeaseRule {
    ghost holds = { λ _. Ruled };

    ghost first = { λ _. opened };
}

/// A fetch that adds a token to the lease word.
pub(crate) struct Take;

impl Play<(), View> for Take {
    ghost then = { Took };
}

/// A fetch that takes a token from the lease word.
pub(crate) struct Give;

impl Play<(), View> for Give {
    ghost then = { Gave };
}

/// A swap that puts a job's number into the name word.
pub(crate) struct Name;

impl Play<(), View> for Name {
    ghost then = { Named };
}

/// A fetch that adds a busy lease to the lease word.
pub(crate) struct Begin;

impl Play<(), View> for Begin {
    ghost then = { Began };
}

/// A fetch by which the seat of a new table, which has its one share, becomes a busy lease.
pub(crate) struct Stand;

impl Play<(), View> for Stand {
    ghost then = { Stood };
}

/// A fetch that takes a busy lease from the lease word.
pub(crate) struct End;

impl Play<(), View> for End {
    ghost then = { Ended };
}

/// A load of the lease word, to which the rule ties the desk's view.
pub(crate) struct Look;

impl Play<(), View> for Look {
    ghost then = { Looked };
}

/// A split of the desk's seat.
pub(crate) struct Lend;

impl Split<View> for Lend {
    ghost left = { desk_side };

    ghost right = { lease_side };
}

/// A join of a lease's seat into the desk's.
pub(crate) struct Spend;

impl Join<View> for Spend {
    ghost both = { both_sides };

    ghost spent = { Spent };
}
