//! Sinks: where text goes, a stream of the process or bytes in memory, and how a whole text is put.
//!
//! The trait [`Sink`] says what a put does: it takes the first bytes of a piece, or fails, or finds no memory, and
//! each is seen in what the sink tells, as are its faults and its wants of memory, each of them. [`put_all`] puts a
//! whole text. [`MemorySink`] fails exactly at the puts that it is told to; [`StdSink`] is a stream of the process and
//! tells, to contracts, the bytes that it took. The crate stands on journal for what contracts know of a stream, and
//! on outside for the puts that are to fail.
#![tactic(auto)]

mod memory_sink;
mod noting;
mod putting;
mod sink;
mod std_sink;

pub use memory_sink::MemorySink;
pub use putting::{Putting, put_all};
pub use sink::{Put, Sink};
pub use std_sink::StdSink;

#[cfg(test)]
mod tests {
    use super::*;
    use std::test::Fail;

    #[test]
    fn texts_are_put(rt: HostRuntime) -> Result<(), Fail> {
        let alloc = rt.alloc();
        // Which puts fail, what the second text comes to, what the sink holds then.
        let cases: [(&[u64], Putting, &str); 3] = [
            (&[], Putting::Done, "one\ntwo\n"),
            (&[1], Putting::Failed, "one\n"),
            (&[2], Putting::Done, "one\ntwo\n"),
        ];
        for (failing, put, held) in cases {
            let mut sink = MemorySink::new(alloc, failing)?;
            assert_eq!(rt; put_all(alloc, &mut sink, b"one\n"), Putting::Done);
            assert_eq!(rt; put_all(alloc, &mut sink, b""), Putting::Done);
            assert_eq!(rt; put_all(alloc, &mut sink, b"two\n"), put);
            assert_eq!(rt; sink.bytes(), held.as_bytes());
        }
        Ok(())
    }

    #[test]
    fn a_stream_takes_text(rt: HostRuntime) {
        let mut out = StdSink::out(rt.stdout());
        assert_eq!(rt; put_all(rt.alloc(), &mut out, b"taken\n"), Putting::Done);
        let mut err = StdSink::err(rt.stderr());
        assert_eq!(rt; err.put(rt.alloc(), b""), Put::Took(0));
    }
}
