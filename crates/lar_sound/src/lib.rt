//! A program without a fault has its types, and is a lawful typed tree.
//!
//! The rules of names and types are definitions, in `lar_rules`: plain recursions that give the faults of a program, and the
//! program with its types where there is no fault. What a typed tree keeps is a definition too, in `lar_typed`. This crate
//! proves that the first give the second, so a checker that answers exactly the rules may make a typed tree where no fault
//! is told, without a test of its own.
//!
//! Two inductions carry it. *Told*: what has no type has a fault told, in it or in the declaration of a name in it. *Sound*:
//! what has a type is lawful in each frame that fits. Both go over plain expressions and statements, and then over the items
//! of a program in reading order. No code runs here.
//! The crate depends on lar_rules, lar_typed, lar_tree, type_table, lar_source and lar_bytes.
#![tactic(auto)]

pub mod laws;
