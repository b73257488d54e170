//! The rules of names and types, as definitions: what each path means, the type of each expression, all faults of a program and
//! which of them is told, and the program with its types where there is none.
//!
//! They are plain recursions over plain trees, a rule for each construct of the language, and know no map, no scope that
//! is popped and no running minimum. The checker answers exactly them. No code runs here.
//! The crate depends on lar_source, lar_tree, type_table and lar_typed.
#![tactic(auto)]

pub mod laws;
