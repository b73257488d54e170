//! Inlining: a pass of the optimiser over the intermediate form of a unit.
//!
//! A function is small where it is internal and its body gives one expression without a call and does nothing else. A call of
//! a small function becomes a Bind: the words of the arguments go into slots behind those that the caller has so far, and
//! then comes the function's expression with its slots raised to these. The caller's slots grow by the function's. Where they
//! would be more than 255, the call stays. Calls are taken in the order in which they would be done. What is put in place is
//! the body before the pass, and it has no call, so nothing is put into what was put in place.
//!
//! The pass is one function on plain trees (`inlined_unit` of `specs/Inline.antt`), and [`inline_calls`] answers just that.
//! It copies the expression of each small function once, and once for each call that it replaces; the rest is moved. A
//! function grows by at most 255 slots, so it puts at most 255 expressions with slots in place; those without a slot are put
//! in place of each of their calls.
//! The crate stands on opt_slots and unit_ir.
#![tactic(auto)]

mod copy;
mod exprs;
mod functions;
mod raise;
mod small;
mod stmts;

pub use functions::inline_calls;
