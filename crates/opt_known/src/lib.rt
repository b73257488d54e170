//! Known words: a pass of the optimiser over the intermediate form of a unit.
//!
//! A body is walked in its order, with what is known of slots at each place: that a slot holds a constant, or what another
//! slot holds. A load of a slot is replaced by what is known of it. A Store of one word into a slot teaches, where its value
//! is a constant or a load of another slot once it was walked. Words that are put into a slot, by a Store or a Bind, drop
//! the facts on it and the facts that name it. Branches begin with what is known behind the condition, and behind an If what
//! neither branch puts words into is still known. Before a loop all goes that it puts words into.
//!
//! The pass is one function on plain trees (`known_unit` of `specs/Known.antt`), and [`use_known`] answers just that. Facts
//! stand by slot. Each put and each fact has a time, and a fact that names a slot counts only if it is later than the last put
//! into that slot. So no put looks at the facts of other slots.
//! The crate stands on opt_slots and unit_ir.
#![tactic(auto)]

mod entry;
mod exprs;
mod facts;
mod functions;
mod stmts;

pub use functions::use_known;
