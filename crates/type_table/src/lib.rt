//! The types of a program as numbers in a table.
//!
//! A type can have exponentially many parts as a tree, so no type is kept as one. A [`Row`] names earlier rows, no two rows of a
//! [`Table`] are one, and a type is the number of its row: two types are equal exactly where their numbers are. Contracts see the
//! tree that a number stands for, `type_at`, and what they say of a number stays true while the table grows, `Keeps`.
//! [`Types`] are a table that replaces generics by arguments and remembers what it replaced: no type is gone into twice for the
//! same arguments.
//! A [`StructDecl`] says what a struct is to types: its generics, its fields, and how long a chain of structs follows it.
//! The crate stands on lar_bytes.
#![tactic(auto)]

mod decl;
pub mod laws;
mod row;
mod sort;
mod table;
mod types;

pub use decl::StructDecl;
pub use row::Row;
pub use sort::Sort;
pub use table::Table;
pub use types::Types;
