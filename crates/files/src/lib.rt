//! What commands want of files, and no more: to read the first bytes of one by its name, and to put bytes in the place
//! of one.
//!
//! The trait [`Files`] says of each call what it answers and what it leaves, and that the object's journal has one
//! call more, with that answer: so a contract over real folders speaks of the bytes that the folder gave.
//! [`MemoryFiles`] tell all that they hold, and fail exactly at the calls that they are told to. [`FolderFiles`] are
//! those of the current folder: they tell nothing of content but what they answered, and are the trusted edge, a few
//! calls of std for each method. The crate stands on journal and outside.
#![tactic(auto)]

mod files;
mod folder_files;
mod memory_files;
mod noting;

pub use files::{Files, Read, Wrote};
pub use folder_files::FolderFiles;
pub use memory_files::MemoryFiles;

#[cfg(test)]
mod tests;
