//! Items are placed in codegen units.
//!
//! The items of a graph that have a home begin in the unit of that home. Units are merged down to a limit (`cgu_merge`), and each
//! gets copies of the items without a home that it needs (`cgu_copies`). This crate puts the steps together:
//!
//! 1. Symbols are made once and put in byte order; from then on items are places.
//! 2. The names of homes are put in byte order, each once ([`homes`]). Each item knows the place of its home's name, and the sizes
//!    of the items of one home are added up.
//! 3. The homes are merged by size and name.
//! 4. Each item with a home goes into the list of the unit that its home's name is in (`buckets`): one look at each item.
//! 5. Each unit follows the calls of its items to items without a home (`cgu_copies`). What is found is put in order by ranks,
//!    which are places in the order of symbols (`ranks`): a copy costs where it stands ([`plans`]).
//!
//! Marks are numbers, one for each unit, so nothing is cleared between units.
//! The crate stands on lar_bytes, lar_typed, text_order, cgu_merge, cgu_copies and mono_items.
#![tactic(auto)]

mod buckets;
mod homes;
mod plans;
mod ranks;
mod units;

pub use units::partition;
