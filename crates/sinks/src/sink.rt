ghost use Rattle.sinks.specs.SinkState.{SinkState, PutLeaves};

use std::alloc::Global;

/// What a put did.
#[derive(Clone, Copy, Debug, PartialEq, Eq)]
pub enum Put {
    /// So many bytes of the piece were taken, from its front.
    Took(usize),
    /// The put failed, and nothing was taken.
    Failed,
    /// The sink found no memory, and nothing was taken.
    Memory,
}

/// Where text goes: a stream of the process, or bytes in memory.
pub trait Sink {
    /// The bytes written so far, where the object tells them, and how many puts have failed and have found no memory.
    ghost told: { Self → SinkState };

    /// Appends the first bytes of a piece, at least one where there is one.
    fn put(&mut self, alloc: Global, piece: &[u8]) -> Put
        ensures { PutLeaves (told self.old) piece.now result (told self.new) };
}
