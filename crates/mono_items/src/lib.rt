//! What is compiled: instances, the items that they are, and the codegen units that items are placed in.
//!
//! An [`Instance`] is a function with arguments for its generics. Its arguments are one number, that of their list in the table of
//! types of the typed tree, so an instance is two numbers. Equal instances have equal numbers, since equal types have.
//!
//! Each instance that is reached from the roots is a [`MonoItem`], and a [`MonoGraph`] has all of them with the targets of their
//! calls. An item that is a root or not inline has a *home*, the codegen unit of its module; its generic instances are apart from
//! the others, in a unit of their own. An item without a home is a copy in each unit that needs it. A [`UnitPlan`] is a unit: its
//! name, its size, its items and its copies.
//!
//! The [`symbol`] of an instance is the text by which it is linked and listed, and by whose bytes items are in order.
//! The crate stands on lar_bytes, type_table, type_sizes and lar_typed.
#![tactic(auto)]

mod items;
mod symbols;

pub use items::{Instance, MonoGraph, MonoItem, UnitPlan};
pub use symbols::symbol;
