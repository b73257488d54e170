//! Codegen units are merged while there are more than a limit: the two least, by size and then by name, become one.
//!
//! A unit begins as the items of one home, a *first unit*, and the names of first units stand in a list in byte order. A merged
//! unit is the places of its first units' names, and its name is these names in byte order joined with `+`. The definition
//! (`merged_units`) compares such names. The code never makes them while it merges: `+` stands below every byte of a name, so the
//! name of a unit is before another's exactly where the least of its first names is, and that is a comparison of two places
//! (`proofs/Names.antt`).
//!
//! So the units lie in an ordered map by size and least place, from which the two least are taken and into which their union is
//! put. A unit's places are appended to another's, and put in order once, at the end. A place is moved at most about 60 times,
//! since the union of two least units is at least as large as any before it.
//! The crate stands on lar_bytes and text_order.
#![tactic(auto)]

mod name;
mod units;

pub use units::{MergedUnit, merge};

#[cfg(test)]
mod tests;
