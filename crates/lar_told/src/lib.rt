//! The least fault so far.
//!
//! A checker finds faults in the order in which it walks, and tells the least one by file, place and code. It keeps that one
//! alone: a [`First`] is handed to each part of the walk, which notes what it finds, and holds the fault that comes before all
//! others noted so far. Contracts see it as the option of a fault, and each call says by `kept` or `least` of the rules what
//! the note leaves. Of faults that are equal in file, place and code the first one noted stays.
//!
//! A part that would need long texts asks first whether the fault is taken at all. At the end [`First::into_fault`] gives the
//! fault, a [`Told`], which becomes a diagnostic once the file's name is known.
//! The crate depends on lar_rules, for what a fault is, and on lar_source.
#![tactic(auto)]

mod first;
mod told;

pub use first::First;
pub use told::Told;

#[cfg(test)]
mod tests;
