//! How long the chains are that begin at the nodes of a graph.
//!
//! A struct that is mentioned in a field of another follows it in a chain. The language lets a chain have 64 structs. Here structs are
//! numbers, and [`followers`] says of each how many follow it in the longest chain, up to a limit; in a cycle they are
//! as many as the limit.
//!
//! The work is done in rounds. After n rounds each node has its followers up to n; a round looks at each edge once. A round that
//! changes nothing is the last, since all later ones would change nothing too: so a program whose chains have at most k structs
//! costs k + 1 looks at each edge, and no program costs more than the limit.
//! The crate stands on std alone.
#![tactic(auto)]

mod chain;
pub mod laws;

pub use chain::followers;

#[cfg(test)]
mod tests;
