//! Types as they are written, and what stands in declarations beside them.
//!
//! A type is the number of a row of a table, where there is no fault in it, and none where there is one. The table is handed to
//! each part of the walk, as the least fault so far is, and only grows; what stood for a type before still does. The walk goes into
//! the written type alone, never into what a name stands for, so its depth is that of the text.
//!
//! The order in which faults are noted is that of the definition, since of two faults at one place with one code the first is told.
//! So a name is looked up, and a wrong number of generics is told, before the generics themselves are read; whether each is of its
//! sort is told after them. [`Site`] says where a type is written: the declarations, the file, the modules and the generics in scope.
//!
//! The crate depends on lar_names for what a path means, on lar_told for the least fault, and on type_table for the rows.
#![tactic(auto)]

mod fault;
mod fitted;
mod generics;
mod given;
mod members;
mod named;
mod number;
mod site;
mod twice;
mod ty;

pub use fault::{note_miscounted, note_unknown, path_text};
pub use fitted::Fitted;
pub use generics::{GenericItem, Generics, generics_of_function, generics_of_struct};
pub use given::Given;
pub use members::{Member, all_members, member_names, outcome};
pub use number::{listed, longer, struct_of, tupled};
pub use site::{Site, TypeName};
pub use twice::note_repeated;
pub use ty::{generics_fitted, generics_given, written};
