//! Widths of types in words, exact up to 255; 256 stands for all above.
//!
//! `i64` and `bool` have one word, and a tuple or struct as many as its parts together. A type's width is a linear form of the widths
//! of its generics: a constant, and a factor for each. [`forms`] makes the form of each row of a table in one pass for each level of
//! structs, however large the rows' types are as trees, and [`value`] is the width under an instance: nothing is replaced, and
//! nothing is added to the table.
//! The crate stands on type_table.
#![tactic(auto)]

pub mod laws;
mod level;
mod linear;
mod row_forms;

pub use linear::value;
pub use row_forms::forms;
