//! Linking the objects of units: which units can be linked is a matter of their inputs.
//!
//! A symbol is at home where a function that other units may call has it. Units can be linked exactly where no symbol is at home
//! twice, each external is at home in a unit, and `main::main` is (`specs/Linkable.antt`). All of this stands in the units' inputs,
//! so it is known before any unit is made. Of the linker's four refusals one is left then: that the image is too large.
//!
//! [`link_units`] is the linker for such units, and the [`laws`] say that nothing else can come of it, and that no less than that was
//! asked. The crate depends on unit_object and symbol_link.
#![tactic(auto)]

pub mod laws;
mod linking;

pub use linking::{TooLarge, link_units};

#[cfg(test)]
mod tests;
