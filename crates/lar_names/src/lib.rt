//! What the sources declare, by number, and what each path means.
//!
//! The rules (lar_rules) speak of one list of all declarations in reading order and search it for each name. This crate makes the
//! same answers fast. [`Names::read`] goes over the trees twice. The first pass (`walk.rt`) follows modules into one another and
//! makes a [`Declaration`] for each item and a scope for each module; it also sees which items are hidden, so that no path leads to
//! them. The second pass (`index.rt`) goes over the declarations in a loop: it numbers the structs, the constants and the functions,
//! enters each name into the table of its scope, notes names that are defined twice, and notes the first function past the limit.
//!
//! A scope is a list of names of modules by number ([`Scopes`]): equal lists have equal numbers, so a map from a scope and a name is
//! as good as a search by names. A path is then walked down the scopes, one look-up for each name of it.
//!
//! All look-ups are exact: [`Names::meaning`] and the calls for one kind answer `path_meant` and its kin of the rules, at any scope
//! and for any path.
//! The crate depends on lar_told, lar_rules and lar_tree.
#![tactic(auto)]

mod declaration;
mod earlier;
mod index;
mod items;
mod meaning;
mod meant;
mod names;
mod read;
mod scopes;
mod tables;
mod walk;

pub use declaration::{Declaration, What};
use earlier::Earlier;
pub use items::{ConstItem, FunctionItem, StructItem};
pub use meaning::Meaning;
pub use names::Names;
pub use scopes::Scopes;
use tables::Tables;

#[cfg(test)]
mod tests;
