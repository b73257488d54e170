//! The stack machine: it validates images and runs those that are valid.
//!
//! `validate` refuses an image by its first fault, and what it lets through is a `Valid`, whose type
//! keeps that the image has none. So `run` tests for no missing word, no slot out of its frame and no
//! jump out of the code: it is proved that none can come, whatever bytes the image came from. What a
//! run prints goes to a sink of the crate sinks. Stands on object_format, whose table of opcodes says
//! what an instruction takes and pushes, and on sinks.
#![tactic(auto)]

mod arithmetic;
mod checking;
mod copies;
mod crossing;
mod end;
mod faults;
mod heights;
mod machine;
mod operation;
mod running;
mod sweeping;
mod valid;
mod validating;

pub use end::{End, Kind};
pub use valid::{Valid, run, validate};

#[cfg(test)]
mod tests;
