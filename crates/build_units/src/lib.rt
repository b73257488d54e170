//! The codegen units of a checked program, as lines of text.
//!
//! The instances that the roots reach are collected and placed in units, and each unit gets its line. A program with a call that
//! cannot be collected, since an argument is too large or there are too many instances, has that call's diagnostic instead.
//! [`listed`] answers what the definition of this name says, a function of the program alone.
//! The crate stands on mono_collect, cgu_partition and units_text, and on program_units for what they answer together.
#![tactic(auto)]

mod graph;
mod lines;

pub use lines::listed;
