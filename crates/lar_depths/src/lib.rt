//! How deep structs stand in one another, by their numbers.
//!
//! A struct that a field of another mentions follows it. The language lets such a chain have 64 structs, so a checker
//! has to know of each struct how many follow it in the longest chain, up to 64, before it can say which chain is too
//! long. The rules (lar_rules) say it by a recursion that goes into a struct again for each way to it. Here each
//! field's written type is read once: the graph has for each struct the numbers of the structs that its fields mention
//! (`mentioned.rt`, `graph.rt`), and struct_chains finds the longest chains in rounds over it. [`depths`] answers
//! exactly the followers of the rules.
//!
//! No fault is found here: a name without a meaning mentions nothing, and who reads the declarations tells the chains
//! that are too long. The crate depends on lar_written for what a name means in a type, on lar_names, on struct_chains,
//! and on the laws of lar_sound.
#![tactic(auto)]

mod chains;
mod graph;
mod mentioned;

pub use chains::depths;
