//! The object of a unit, by the unit's input alone.
//!
//! What it is stands in `specs/UnitObject.antt`: the input is lowered, optimised at its level and emitted, or there is the first
//! fault: that of lowering, and else that of a function whose code is too long. Serial and parallel builds are held to this one
//! definition, whoever does the work and in whatever order.
//!
//! [`make_bytes`] does it under a busy lease, and gives the object's spelling, as it is kept and sent. [`make_object`] does it
//! alone, and gives the object, as it is linked. Both count one step for each unit that is made.
//! The [`laws`] say what a linker can know of an object by the unit's input: its symbols, which functions other units may call, and
//! its externals. So whether units can be linked is a matter of their inputs.
//! The crate depends on unit_input, unit_lower, unit_opt and unit_emit, and on object_format for the way back from a spelling.
#![tactic(auto)]

pub mod laws;
mod making;

pub use making::{make_bytes, make_object};

#[cfg(test)]
mod tests;
