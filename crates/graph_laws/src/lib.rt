//! Laws of graphs: what follows of a program's graph for the layers that place it and close its units.
//!
//! A graph has one answer. What it holds is what the roots reach by calls, each instance once, at most 65,536, and no call has an
//! argument that is too large. Each instance is of a function that is there, and no generic stands in its arguments. Different
//! instances have different symbols, so that the graph is one that can be placed in units. The symbols need that each number in a
//! row of the table of types is one of 64 bits, and `read_numbers` reads the rows once for that; it is the one piece of code here.
//! The crate stands on type_table, type_sizes, lar_typed, reach, text_order, cgu_copies, mono_items and mono_graph.
#![tactic(auto)]

pub mod laws;
mod numbers;

pub use numbers::read_numbers;
