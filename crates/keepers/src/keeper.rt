ghost use Rattle.keepers.specs.KeeperState.{KeeperState, LoadStep, NamesStep, RemoveStep, SaveStep, done_of, found_of, listing_of};

use lar_bytes::Bytes;
use std::alloc::{AllocError, Global};

/// What a load gave.
#[derive(Debug, Drop)]
pub enum Loaded {
    /// The first bytes under the name, at most as many as were asked for.
    Bytes(Bytes),
    /// The name is not there.
    Absent,
    /// The call failed.
    Failed,
}

/// What a save or a remove did.
#[derive(Clone, Copy, Debug, PartialEq, Eq)]
pub enum Saved {
    /// The name holds the bytes, or it is gone.
    Done,
    /// After a save the name holds what it held, or a prefix of the bytes. After a remove it is gone or as before.
    Failed,
    /// There was no memory, and nothing changed. No remove answers it.
    Memory,
}

/// What a keeper says of its names.
#[derive(Debug, Drop)]
pub enum Named {
    /// All names that hold something, each once, in byte order.
    Names(Vec<String>),
    /// The call failed.
    Failed,
}

/// A map from names to bytes that outlives a build: a folder, or names in memory.
pub trait Keeper {
    /// What the names hold, where the keeper tells it, and each call on it with its answer.
    ghost told: { Self → KeeperState };

    /// The first bytes under a name, at most `most`. It changes nothing that is held.
    fn load(&mut self, alloc: Global, name: &str, most: u64) -> Result<Loaded, AllocError>
        ensures { LoadStep (told self.old) name.now most (found_of result) (told self.new) };

    /// Puts bytes in the place of what the name holds. Other names stay.
    fn save(&mut self, alloc: Global, name: &str, bytes: &[u8]) -> Saved
        ensures { SaveStep (told self.old) name.now bytes.now (done_of result) (told self.new) };

    /// Removes a name, which may be one that is not there. It takes no memory. Other names stay.
    fn remove(&mut self, name: &str) -> Saved
        ensures { RemoveStep (told self.old) name.now (done_of result) (told self.new) };

    /// All names that hold something. It changes nothing that is held.
    fn names(&mut self, alloc: Global) -> Result<Named, AllocError>
        ensures { NamesStep (told self.old) (listing_of result) (told self.new) };
}
