//! What the environment variable `MAKEFLAGS` tells a program that make has started: whether make is run dry, and which jobserver
//! it has, if any.
//!
//! [`read_flags`] answers it of any text, takes no memory and reads nothing else. Its contract is one equation: the answer is the
//! definition's (`specs/Flags.antt`), which splits the text into words, reads options up to a word `--`, and lets the last one that
//! names a jobserver decide. A path is answered by where it stands in the text.
//! The crate stands on std alone.
#![tactic(auto)]

mod flags;
mod number;
mod words;

pub use flags::{Flags, Jobserver, read_flags};

#[cfg(test)]
mod tests;
