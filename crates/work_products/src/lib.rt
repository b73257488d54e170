//! The store of kept objects: a unit whose input was compiled before is not compiled again.
//!
//! A keeper holds a *record* for each unit: the text of its input, the object that was made of it, and a digest of both. The
//! record's name is the fingerprint of the text. [`find`] answers an object only where the whole record is there and has this very
//! text, so neither a collision of fingerprints nor a record that was torn, changed or cut gives a wrong object; everything else is
//! `Absent`, `Damaged` or, where a call on the keeper failed, `StoreFault`. [`keep`] saves a record and [`prune`] removes those
//! that no one wants.
//!
//! `write_record` gives the one spelling of a record in the newest version; `read_record` takes back the spellings of both
//! versions, and no others, and names the first field of all other bytes that breaks a rule. An object of a record of version 1 is
//! lifted when it is found. `laws` has what holds of all records and of all stores: no strict prefix of a record is one, what was
//! kept is found, and a store in which each record has the object that is made of its input stays so. The crate stands on keepers,
//! object_format and unit_input, on the words of files, journal and outside, on lar_bytes, and on the kit's sha2, hex and
//! thiserror.
#![tactic(auto)]

mod cursor;
pub mod laws;
mod pruning;
mod record;
mod record_reading;
mod store;

pub use keepers::{FolderKeeper, Keeper, Loaded, MemoryKeeper, Named, Saved};
pub use pruning::{is_record_name, prune};
pub use record::{MAX_RECORD, TooLong, record_name, write_record};
pub use record_reading::read_record;
pub use store::{Found, Kept, find, keep};

#[cfg(test)]
mod tests;
