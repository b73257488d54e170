//! The graph of a program is collected: the instances that its roots reach, and the calls between them.
//!
//! Calls are read one after another, as `mono_graph` defines, and this crate does it in near-linear time:
//!
//! - The calls of each function with the patterns of their arguments, and its size, are taken once ([`bodies`]). An instance costs
//!   no walk of a tree.
//! - Arguments are numbers of rows. What a caller's arguments make of a pattern is one `substitute`, which goes into no type twice;
//!   how large it is then costs its new rows, whatever the type is as a tree ([`arguments`]). So the test for arguments that are
//!   too large comes after the substitution, and no refused type is ever gone through.
//! - An instance is two numbers, and one look-up finds it ([`found`]). Equal instances have equal numbers, since equal types have.
//! - Instances are read in the order in which they are found, so the queue is the list of them and a place in it ([`walk`]).
//!
//! The typed tree is taken by reference, since its table of types grows; its program stays the same.
//! The crate stands on lar_bytes, lar_source, type_table, type_sizes, lar_typed, text_order, mono_items, mono_bodies and
//! mono_graph.
#![tactic(auto)]

mod arguments;
mod bodies;
mod found;
mod graph;
mod items;
mod roots;
mod walk;

pub use graph::collect;
pub use mono_graph::RefusedCall;
