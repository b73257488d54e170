ghost use Rattle.sinks.specs.Putting.{PuttingLeaves};

use crate::{Put, Sink};
use std::alloc::Global;

/// How far a text was put.
#[derive(Clone, Copy, Debug, PartialEq, Eq)]
pub enum Putting {
    /// The sink took all of it.
    Done,
    /// A put failed, and the sink took a front of it.
    Failed,
    /// The sink found no memory, and took a front of it.
    Memory,
}

/// Puts a whole text, in as many puts as the sink wants. No put is made for an empty text.
pub fn put_all<S: Sink>(alloc: Global, sink: &mut S, text: &[u8]) -> Putting
    ensures { PuttingLeaves (S.told sink.old) text.now result (S.told sink.new) }
{
    let mut sent = 0;
    while sent < text.len() {
        match sink.put(alloc, &text[sent..]) {
            Put::Took(count) => sent += count,
            Put::Failed => return Putting::Failed,
            Put::Memory => return Putting::Memory,
        }
    }
    Putting::Done
}
