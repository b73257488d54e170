//! Laws of codegen units: how the units of a graph share its items.
//!
//! Each item with a home is at home in one unit and in no other. What an item of a unit calls is in the unit, or at home in one. No
//! unit has an item twice. These follow from the definition of the units of a graph (`AreUnits` of mono_items), whatever code
//! answers it: merging loses no first unit and takes none twice, and copies are closed under calls of items without a home.
//! The crate stands on lar_typed, reach, text_order, cgu_merge, cgu_copies, mono_items and cgu_partition. No code of it runs.
#![tactic(auto)]

pub mod laws;
