//! The coordinator's core run in worker lanes.
//!
//! [`drive`] runs the units of a [`Work`]: it generates them one by one on the caller's thread and makes
//! them in lanes, threads that live for the whole call. What is done next is decided by `coord_core`. Each
//! job and each generation has a lease of `lease_table`, and every job beyond the first is paid by a byte
//! of a pool of `token_pool`. It knows nothing of what a unit is.
//!
//! Promised, whatever the order in which answers come (`specs/Driven.antt`): the journal is a lawful run of
//! the coordinator that ends finished; each outcome is the work's definition of its unit; the readings in
//! the journal are those that the desk has seen; every byte that was taken was given back or is listed as
//! lost; and all shares are back at the desk. Not promised: that it returns, nor that two threads ever run
//! at once, which a test shows.
//!
//! It stands on the kit's `crossbeam_channel`, whose channels keep a rule over what they hold and over
//! what each holder of a pass knows.
#![tactic(auto)]

mod answering;
mod books;
mod driven;
mod driving;
mod ends;
mod gate;
mod job;
mod lane;
mod lanes;
pub mod laws;
mod message;
mod pending;
mod rules;
mod session;
mod starting;
mod work;

pub use driven::{Driven, Entry, Made};
pub use driving::drive;
pub use gate::{FreeGate, Gate};
pub use work::Work;

#[cfg(test)]
mod tests;
