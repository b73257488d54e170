//! The command line of the compiler: statuses, reports and commands, over files and streams that are handed in.
//!
//! A command is one script (`specs/Commands`): which files it reads and writes and which texts it puts, in order, and
//! what it makes of the answers. [`larch_plain`] serves a command line, and its contract is that its calls and their
//! answers are the script's, whatever these objects are and whichever of their calls fail; that the script's status is
//! then reported; and that it ends early where memory is wanted or a put fails. What a user wants to know besides is a
//! clause of its own that follows from that by a law over every script: the answer where nothing fails, which call's
//! failure a status tells of, that a refusal leaves the files as they were.
//!
//! The code of a command is a row of steps, each with a script of its own, and a step answers a value or the status
//! that ends the command; so `?` stands where the script has `>>=`.
//!
//! The crate stands on words for command lines, on files, sinks and scripts for what commands work on, on build_front,
//! build_units and lar_lexer for sources, on object_format, listings, symbol_link and stack_vm for objects and images, on source_gen for sources that
//! are generated, and on make_flags for what make says.
#![tactic(auto, using(crate::proofs::Following::following))]

mod build;
mod check;
mod dump;
mod generate;
mod image;
mod link;
mod loading;
mod plain;
mod reporting;
mod run;
mod sending;
mod sources;
mod status;
mod steps;
mod units;

pub use image::image_of_prints;
pub use plain::larch_plain;
pub use reporting::report;
pub use status::Status;

#[cfg(test)]
mod dump_tests;
#[cfg(test)]
mod link_tests;
#[cfg(test)]
mod run_tests;
#[cfg(test)]
mod tests;
