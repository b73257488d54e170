//! Bodies of functions: the walk over statements and blocks.
//!
//! [`body`] goes over the body of one function. It gives the statements with their types, where there is no fault in them, and
//! the type of each local by its number; and it notes each fault of the body, that it may end without a value too. Its contract
//! cites the rules of lar_rules for the body of a function as they stand there, so a caller that goes over all functions has
//! only to put them together.
//!
//! The locals in scope are a stack: a block leaves those that it declared. The types of all locals are a list, which only
//! grows. The parameters are the first locals; of two of one name the first is meant.
//!
//! The walk goes as deep as the tree and no deeper. What declared names mean is asked of a [`lar_judge::Site`]. The crate
//! depends on lar_stmts, lar_judge, lar_written, lar_rules, lar_told, lar_typed, lar_tree, type_table, lar_source and
//! lar_bytes.
#![tactic(auto)]

mod ending;
mod entry;
mod function;
mod made;
mod walk;

pub use function::{TypedBody, body};
