ghost use Rattle.sinks.specs.Puts.{WritesSome};

use crate::noting::with_put;
use crate::{Put, Sink};
use journal::Journal;
use std::alloc::Global;
use std::io::{Stderr, Stdout, Write};

#[derive(Drop)]
enum Stream {
    Out(Stdout),
    Err(Stderr),
}

/// A standard stream of the process. It tells contracts the bytes that it took. A write that fails, or that takes
/// nothing of a piece that is not empty, is a fault.
#[derive(Drop)]
pub struct StdSink {
    stream: Stream,
    journal: Journal,
}

impl StdSink {
    /// The standard output.
    pub fn out(stream: Stdout) -> StdSink {
        StdSink {
            stream: Stream::Out(stream),
            journal: Journal::new(),
        }
    }

    /// The standard error.
    pub fn err(stream: Stderr) -> StdSink {
        StdSink {
            stream: Stream::Err(stream),
            journal: Journal::new(),
        }
    }
}

fn write_to(stream: &mut Stream, piece: &[u8]) -> Put
    ensures { WritesSome piece.now result }
{
    if piece.is_empty() {
        return Put::Took(0);
    }
    let written = match stream {
        Stream::Out(stream) => stream.write(piece),
        Stream::Err(stream) => stream.write(piece),
    };
    match written {
        Ok(0) | Err(_) => Put::Failed,
        Ok(count) => Put::Took(count),
    }
}

impl Sink for StdSink {
    ghost use Rattle.sinks.specs.Puts.{sink_after};

    ghost told = { λ sink. sink_after sink.journal.calls };

    fn put(&mut self, _alloc: Global, piece: &[u8]) -> Put {
        let put = write_to(&mut self.stream, piece);
        self.journal = with_put(&self.journal, piece, put);
        put
    }
}
