ghost use Rattle.std.specs.Prelude.{◌≡◌, ◌↔◌, [], Contains, IfOk};
ghost use Rattle.outside.specs.CallsState.{after_call};
ghost use Rattle.sinks.specs.SinkState.{PutLeaves};
ghost use Rattle.sinks.specs.MemorySinkState.{is_failed, sink_told};

use crate::noting::with_put;
use crate::{Put, Sink};
use journal::Journal;
use outside::FailingCalls;
use std::alloc::{AllocError, Global};
use std::marker::Model;

/// A sink in memory, some of whose puts are to fail. It takes whole pieces.
#[derive(Drop)]
pub struct MemorySink {
    bytes: Vec<u8>,
    calls: FailingCalls,
    journal: Journal,
}

impl Model for MemorySink {
    ghost use Rattle.sinks.specs.MemorySinkState.{MemorySinkState, coded_memory_sink};

    ghost Value = { MemorySinkState };

    ghost coded = { coded_memory_sink };

    ghost view = { λ s. record { bytes = s.bytes.items; calls = s.calls; puts = s.journal.calls } };
}

impl MemorySink {
    /// A sink that holds no byte. The puts with these numbers, from 0, are to fail.
    pub fn new(alloc: Global, failing: &[u64]) -> Result<MemorySink, AllocError>
        ensures { IfOk result (λ sink. sink ≡ record { bytes = []; calls = record { failing = failing.now; calls = 0; faults = 0 }; puts = [] }) }
    {
        Ok(MemorySink {
            bytes: Vec::new(alloc),
            calls: FailingCalls::new(alloc, failing)?,
            journal: Journal::new(),
        })
    }

    /// The bytes that were written.
    pub fn bytes(&self) -> &[u8]
        ensures { result.now ≡ self.now.bytes }
    {
        &self.bytes
    }
}

impl Sink for MemorySink {
    ghost use Rattle.sinks.specs.MemorySinkState.{sink_told};

    ghost told = { λ sink. sink_told sink };

    fn put(&mut self, _alloc: Global, piece: &[u8]) -> Put
        ensures leaves { PutLeaves (sink_told self.old) piece.now result (sink_told self.new) }
        ensures fails { (result ≡ Put.Failed) ↔ Contains self.old.calls.failing self.old.calls.calls }
        ensures counted { self.new.calls ≡ after_call (is_failed result) self.old.calls }
    {
        let put = if self.calls.next_fails() {
            Put::Failed
        } else {
            match self.bytes.extend_from_slice(piece) {
                Ok(()) => Put::Took(piece.len()),
                Err(_) => Put::Memory,
            }
        };
        self.journal = with_put(&self.journal, piece, put);
        put
    }
}
