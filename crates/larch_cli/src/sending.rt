//! Long texts, put in parts: the parts are made at the end of a text that is kept back, and once it is long enough it
//! goes to the sink and is begun anew.

ghost use Rattle.std.specs.Prelude.{◌≡◌};
ghost use Rattle.listings.specs.Listed.{text_of};
ghost use Rattle.scripts.specs.Outside.{Lands};
ghost use Rattle.larch_cli.specs.Commands.{say};
ghost use Rattle.larch_cli.specs.Sending.{SendEnds, came_of};
ghost use Rattle.larch_cli.specs.Steps.{OnOut};

use crate::Status;
use listings::Listed;
use sinks::{Putting, Sink, put_all};
use std::alloc::{AllocError, Global};

/// Why a text was not put whole.
#[derive(Clone, Copy, Debug, PartialEq, Eq)]
pub enum NotPut {
    /// A put failed.
    Failed,
    /// There was no memory.
    Memory,
}

impl From<AllocError> for NotPut {
    ghost use Rattle.std.specs.Prelude.{◌≡◌};
    ghost use Rattle.larch_cli.specs.declared.sending.NotPut.TheVariants.{Memory};

    ghost from_gives = { λ _ why. why ≡ Memory };

    fn from(_: AllocError) -> NotPut {
        NotPut::Memory
    }
}

// From so many bytes on a text is put.
const ROOM: usize = 65_536;

fn put_whole<S: Sink>(alloc: Global, out: &mut S, text: &[u8]) -> Result<(), NotPut>
    ensures { Lands (S.told out.old) text.now (came_of result) (S.told out.new) }
{
    match put_all(alloc, out, text) {
        Putting::Done => Ok(()),
        Putting::Failed => Err(NotPut::Failed),
        Putting::Memory => Err(NotPut::Memory),
    }
}

fn put_if_long<S: Sink>(alloc: Global, out: &mut S, text: &mut Vec<u8>) -> Result<(), NotPut>
    ensures { SendEnds (S.told out.old) (S.told out.new) text.old.items text.new.items result }
{
    if text.len() < ROOM {
        return Ok(());
    }
    put_whole(alloc, out, text.as_slice())?;
    text.clear();
    Ok(())
}

fn put_parts<S: Sink>(alloc: Global, out: &mut S, listed: &Listed) -> Result<(), NotPut>
    ensures { Lands (S.told out.old) (text_of listed.now) (came_of result) (S.told out.new) }
{
    let mut text = Vec::new(alloc);
    for part in 0..listed.parts() {
        listed.push_part(&mut text, part)?;
        put_if_long(alloc, out, &mut text)?;
    }
    put_whole(alloc, out, text.as_slice())
}

/// Puts a listing on the stream of the command.
pub(crate) fn put_listing<S: Sink>(
    alloc: Global,
    out: &mut S,
    listed: &Listed,
) -> Result<(), Status>
    ensures { OnOut (say (text_of listed.now)) (S.told out.old) (S.told out.new) result }
{
    match put_parts(alloc, out, listed) {
        Ok(()) => Ok(()),
        Err(NotPut::Failed) => Err(Status::SinkFault),
        Err(NotPut::Memory) => Err(Status::Memory),
    }
}
