//! Keepers: maps from names to bytes that outlive a build, and no more than a store of records wants of them.
//!
//! The trait [`Keeper`] has four calls: the first bytes under a name, bytes in its place, a name removed, and all names. It says of
//! each what it answers and leaves, and that the object's journal has one call more, with that answer. So a contract over a real
//! folder, which tells nothing of what it holds, speaks of the very bytes that the folder gave, and of a call that failed as the
//! only cause of a fault. [`MemoryKeeper`] tells all that it holds; it fails exactly at the calls that it is told to, and a failed
//! save leaves as many bytes as it is told to. [`FolderKeeper`] is a folder: a few calls of std for each method, the trusted edge.
//! It writes beside and renames, waits for no disk, and leaves at most one file behind where the program is killed. The crate
//! stands on journal, outside, files, lar_source and lar_bytes.
#![tactic(auto)]

mod folder_keeper;
mod held_names;
mod keeper;
mod keeper_journal;
mod memory_keeper;
mod noting;

pub use folder_keeper::FolderKeeper;
pub use keeper::{Keeper, Loaded, Named, Saved};
pub use memory_keeper::MemoryKeeper;

#[cfg(test)]
mod tests;
