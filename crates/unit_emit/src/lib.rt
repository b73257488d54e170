//! Code of the stack machine from the intermediate form, and the object of a unit.
//!
//! Where the code of each construct stands is defined by the codes of its parts and their lengths, as lists of instructions.
//! The code is written in one go: each byte once, and the operand of a jump once more when its target is known. [`make`] is
//! what a job does with a unit: it optimises, emits and spells the object, or names the first function whose code is too long.
//! The crate stands on unit_opt, and on object_format for instructions and the spelling.
#![tactic(auto)]

mod buffer;
mod exprs;
mod function;
mod job;
mod object;
mod stmts;

pub use job::make;

#[cfg(test)]
mod tests;
