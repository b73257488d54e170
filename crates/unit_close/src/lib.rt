//! The items of a codegen unit are closed: its functions, and what it knows of functions of other units.
//!
//! `closed_input` says what the input of a unit is. A [`Closing`] has at hand what a unit is closed over: the typed tree, the
//! forms of its types' widths, the items of the graph, and the places of those that the unit's calls may name.
//! [`Closing::close_item`] gives a function of the unit, and [`Closing::know_item`] what is known of a function of another one.
//! Both cost what they read:
//!
//! - Nothing is replaced and nothing is interned under an instance. A width is the value of a row's linear form at the widths
//!   of the instance's arguments (`type_widths`), so an instance costs these and its body. Offsets go over at most 64 fields
//!   ([`measure`]).
//! - The calls of a body are numbered before the body is gone through, in reading order, and one counter finds the number of each.
//! - A body is gone through once ([`exprs`], [`stmts`]); what is made is what `closed_input` says (`proofs/ExprsClose`,
//!   `StmtsClose`).
//!
//! An input counts locals and the bytes of a symbol in 32 bits. Longer lists are taken for want of memory. What finds the two
//! lists of a unit, numbers its calls and puts its input together is to come. The crate stands on lar_bytes, type_table,
//! type_widths, lar_typed, mono_items, mono_graph, unit_input and closed_input, and on the kit's sqlite_items.
#![tactic(auto)]

mod around;
mod exprs;
mod function;
mod items;
mod measure;
mod numbers;
mod stmts;

pub use items::Closing;
