//! What the input of a codegen unit is, closed over all that the unit names.
//!
//! A unit's code depends on nothing but its input, so the input has to hold whatever the unit's functions say: their bodies, with
//! constants and const generics as numbers, parts of values as offsets and widths in words, and calls as numbers of the unit's own
//! two lists; and of each function that they call in another unit its symbol and how many words it takes and gives.
//!
//! `specs/Places.antt` says how many words a value has under an instance and where its parts lie; `specs/Bodies.antt` has what
//! becomes of each expression and statement, a row for each; `specs/Unit.antt` has the unit's two lists and its input, from the
//! typed tree, the graph and the plan. Nothing in them is a cache or an index. [`laws`] has what follows. Definitions and laws
//! alone. The crate stands on lar_bytes, lar_source, type_table, type_widths, lar_typed, reach, text_order, mono_items,
//! mono_graph and unit_input.
#![tactic(auto)]

pub mod laws;
