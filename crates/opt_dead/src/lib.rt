//! Dead stores: a pass of the optimiser over the intermediate form of a unit.
//!
//! A Store into slots of which none is loaded in its function becomes an Eval, which drops the words. An Eval goes where its
//! expression has no call, division or remainder, since then nothing is seen of computing it; so a Store that became one goes
//! too. Loads are counted once, before anything goes: a load in a statement that goes still keeps the Stores into its slot.
//!
//! The pass is one function on plain trees (`dead_unit` of `specs/Dead.antt`), and [`drop_dead`] answers just that. It walks
//! each body twice, once for its loads and once to change it, and copies nothing.
//! The crate stands on opt_slots and unit_ir.
#![tactic(auto)]

mod functions;
mod quiet;
mod stmts;

pub use functions::drop_dead;
