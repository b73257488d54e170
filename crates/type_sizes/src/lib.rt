//! How large types are: their parts and their nesting, and the text that a type is printed as.
//!
//! Both are computed in one pass over the rows of a table, whatever the rows' types are as trees, and stop at the last value of
//! their numbers, so a type that no argument may be is told before anything is made of it. [`sizes`] goes on from what is known
//! where the table grew. [`lengths`] are those of the texts of types, and [`write_type`] reserves the whole text before it puts
//! the first byte: a text that no memory holds is want of memory at once.
//! The crate stands on lar_bytes and type_table.
#![tactic(auto)]

pub mod laws;
mod line;
mod measure;
mod spelling;
mod text_lengths;

pub use measure::{Size, is_too_large, sizes};
pub use spelling::type_text;
pub use text_lengths::lengths;

#[cfg(test)]
mod tests;
