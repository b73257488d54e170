//! The order in which faults are noted.
//!
//! The rules say which fault of a program is told: the least by file, place and code, and of several that are equal in these the
//! first in the list of all faults. That list goes item by item, so a function's body comes before the declarations of later
//! items. A checker goes another way: it needs all declarations before it looks into a body. So it has to be known that the
//! two orders tell the same fault.
//!
//! It holds where the tokens of each source are in order: each fault stands at a token of what it is found in, so faults of
//! different items are at different places, and lists of faults that are all at different places may be looked at in either
//! order. No code runs here: the laws are contracts of functions that do nothing.
//! The crate depends on lar_sound, lar_rules, lar_typed, type_table, lar_tree, lar_source and lar_bytes.
#![tactic(auto)]

pub mod laws;
