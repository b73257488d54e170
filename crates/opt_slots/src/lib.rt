//! Sets of slots, and the slots that a tree of the intermediate form loads and writes.
//!
//! Passes of the optimiser ask which slots a body loads, or into which it puts words. A [`SlotSet`] answers for one slot and
//! for a row of slots in constant time for each slot. [`note_loads`] and [`note_writes`] walk a body once and add what they
//! find to such a set; [`note_expr_writes`] does so for one expression.
//!
//! In contracts a set is a test of slot numbers (`slots_of`), and what a tree loads or writes is such a test by clauses on
//! plain trees (`specs/Loads.antt`, `specs/Writes.antt`).
//! Passes that walk a body in its order take the members of a list from the first on, by [`last_first`].
//! The crate stands on unit_ir.
#![tactic(auto)]

mod loads;
mod order;
mod set;
mod writes;

pub use loads::note_loads;
pub use order::last_first;
pub use set::SlotSet;
pub use writes::{note_expr_writes, note_writes};
