ghost use Rattle.files.specs.FilesState.{FilesState, ReadStep, WriteStep, done_of, found_of};

use lar_bytes::Bytes;
use std::alloc::{AllocError, Global};

/// What a read gave.
#[derive(Debug, Drop)]
pub enum Read {
    /// The first bytes of the file, at most as many as were asked for.
    Bytes(Bytes),
    /// No file has the name.
    Absent,
    /// The file could not be read.
    Failed,
}

/// What a write did.
#[derive(Clone, Copy, Debug, PartialEq, Eq)]
pub enum Wrote {
    /// The name holds the bytes.
    Done,
    /// The name holds what it held, or a prefix of the bytes.
    Failed,
    /// There was no memory, and nothing changed.
    Memory,
}

/// A map from names to bytes: a folder, or files in memory.
pub trait Files {
    /// What the names hold, where the object tells it, and each call on it with its answer.
    ghost told: { Self → FilesState };

    /// The first bytes of a file, at most `most`. It changes nothing that is held.
    fn read(&mut self, alloc: Global, name: &str, most: u64) -> Result<Read, AllocError>
        ensures { ReadStep (told self.old) name.now most (found_of result) (told self.new) };

    /// Puts bytes in the place of what the name holds. Other names stay.
    fn write(&mut self, alloc: Global, name: &str, bytes: &[u8]) -> Wrote
        ensures { WriteStep (told self.old) name.now bytes.now (done_of result) (told self.new) };
}
