//! Leases of job slots, counted in one atomic word.
//!
//! A build tool may run one job on its own slot, and one more for each token that it holds. Here
//! that is a matter of types. A [`Desk`] has one share at first and one more for each token taken.
//! It lends a share as a [`Lease`]; the lease begins and is a [`Busy`], which a job's work asks
//! for; the busy lease ends and is a lease again; the desk takes it back with `spend`. Neither a
//! lease nor a busy one can be copied, so no job runs without a share that somebody gave up.
//!
//! The numbers held and running stand in one word, which each of these calls changes in a single
//! atomic step. None of them waits for another thread, and none takes memory. The rule, that the
//! shares are one more than the tokens held and the busy leases as many as run, holds between any
//! two steps of all threads (`specs/Rule.antt`; the steps are in `specs/Steps.antt`). So at each
//! begin step at most one more run than are held, and the [`Reading`] that `begin` answers is the
//! word as this very step left it.
//!
//! It stands on the kit's `atomic_table`, which keeps a rule over a word and over what each holder
//! of a seat knows.
#![tactic(auto)]

mod desk;
mod lease;
mod mark;
mod reading;
mod steps;
mod view;

pub use desk::{Desk, Leases};
pub use lease::{Busy, Lease};
pub use mark::Mark;
pub use reading::Reading;
pub use view::View;

#[cfg(test)]
mod tests;
