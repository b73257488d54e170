//! What is known of declared structs and functions where they are named.
//!
//! A path that names a function or a struct leads to its number, and its signature says the rest: of a struct the names and the
//! types of its fields, of a function its generics, its parameters and its result. A type is the number of a row of the one table,
//! where there is no fault in it. [`Signatures::read`] goes over the structs once and over the functions once, and notes each fault
//! of a declaration: names that are defined twice in it, what is wrong in its types, and structs that begin too long a chain. What
//! stands in a body is not looked at. So whoever checks a body finds each declaration by one look into a list.
//!
//! Beside them stands the list of the structs as types name them ([`type_table::StructDecl`]): by it types are printed in
//! diagnostics, and it is that of the typed tree where no fault is found.
//!
//! Contracts say with `SignaturesStand` that each signature stands for the fields, parameters and result of the rules. That stays
//! so while the table grows.
//! The crate depends on lar_written for types as they are written, on lar_names for what is declared, on lar_told for the least
//! fault, and on fault_order for the order in which faults are noted.
#![tactic(auto)]

mod declared;
mod function;
pub mod laws;
mod signatures;
mod structure;

pub use function::FunctionSignature;
pub use signatures::Signatures;
pub use structure::StructSignature;
