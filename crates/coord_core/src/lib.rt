//! The coordinator of parallel code generation, as a pure machine over events.
//!
//! A run generates codegen units one by one and makes each in a job of its own. Jobs beyond the first
//! need tokens of a jobserver. What is done next depends on the order in which answers come: `Core` is
//! told each answer as an `Event` and answers `Actions`. It starts no thread, reads no pipe and takes no
//! memory after `Core::new`; the layers above do what it says.
//!
//! It is proved to be the definition of `specs/`: a state, the effect of each event on it, and five
//! decisions after it. Above the definition, `laws` holds what is true of every lawful order of answers:
//! the tokens bound the jobs, units are generated in order and none is lost below the bar, no
//! token is lost, and a run ends. It stands on `counting` alone.
#![tactic(auto)]

mod board;
mod coordinator;
mod event;
mod giving;
mod job;
pub mod laws;
mod queue;
mod terms;

pub use coordinator::Core;
pub use event::{Actions, Event, Main};
pub use terms::Terms;
