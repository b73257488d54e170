//! Lowering: a unit's input becomes its intermediate form, or the fault of its first function that has one.
//!
//! What each construct becomes is said in `specs/Lowering.antt`, by a fold over plain trees that threads the number of the next fresh
//! slot; what the assertions of a body come to, in `specs/Assertions.antt`; what is too wide, in `specs/Wide.antt`; and the whole in
//! `specs/LoweredUnit.antt`. The laws are in [`laws`].
//!
//! [`generate`] is the code. A function's assertions come first, since their faults do. Then its body is gone through once. A
//! local or a part of one is no more than its slots until a whole is asked for, so a part of a part loads its own words alone. What
//! is too wide for slots of a byte stops the function at once; slots are never given back, so nothing that follows can mend it.
//! The work is done under a busy lease, which pays for the processor, and memory is all that it can lack.
//! The crate depends on unit_input, unit_ir, lease_table and lar_bytes.
#![tactic(auto)]

mod assertions;
mod exprs;
pub mod laws;
mod operator;
mod scope;
mod stmts;
mod stop;
mod unit;
mod value;

pub use unit::generate;

#[cfg(test)]
mod tests;
