//! The words of a command line: which command they name, with its file words and options.
//!
//! `clap` reads a line of words as one simple command; what a line means is a definition of this crate's own (`Sorts`:
//! a case for each way to spell a part), and [`line_of`] promises just that line, or none where the words spell none.
//! [`command_of`] promises the command by the table of commands (`specs/Commands`): the options of each, their
//! defaults and ranges. Errors are want of memory alone. The crate stands on the
//! kit's clap, on lar_bytes, and on lar_tree for keywords.
#![tactic(auto)]

mod commands;
mod limit;
mod line;
mod names;
mod numbers;
mod recipe;
mod sources;

pub use commands::{Command, command_of};
pub use limit::UnitLimit;
pub use line::{Choice, Given, Line, line_of};
pub use names::Names;
pub use recipe::Recipe;
pub use sources::Sources;

#[cfg(test)]
mod tests;
