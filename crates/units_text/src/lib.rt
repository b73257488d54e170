//! The text of codegen units: what the command `units` puts.
//!
//! Each unit has a line, in the order of the units: its name, the size of the items that have their home in it, how many these are,
//! and how many copies it has. `specs/Lines.antt` says the text exactly, by units as plain data, so that what a command puts can be
//! said of a program without the values of the code. [`units_text`] makes it from the plans.
//! The crate stands on mono_items for plans, on lar_bytes for names, and on the kit's `itoa` for numbers.
#![tactic(auto)]

mod lines;

pub use lines::units_text;

#[cfg(test)]
mod tests;
