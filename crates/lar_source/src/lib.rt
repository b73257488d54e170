//! What a source is: a file, a place in one of several files, and a diagnostic at such a place.
//!
//! A [`File`] has a name and bytes. A [`Span`] is a place: the number of a file, a line and a column. A [`Diag`] says which fault
//! stands at a place. The table of all diagnostics, a number and a text for each [`Code`], stands in `specs/Code.antt`. A [`Diag`]
//! has an argument for each part in capitals of its text, and [`Diag::write`] puts exactly the line `FILE:LINE:COL: CODE TEXT`.
//!
//! The crate stands below tokens and trees, so that a change of these proves it no more. It depends on lar_bytes alone, and
//! hands on `Text`, `Texts`, `Bytes` and `OrMemory`, which each call of the front end names.
#![tactic(auto)]

mod code;
mod diag;
mod file;

pub use code::Code;
pub use diag::Diag;
pub use file::{File, Span};
pub use lar_bytes::{Bytes, OrMemory, Text, Texts};

#[cfg(test)]
mod tests;
