//! The steps that commands are made of, each with the script that it follows. A step answers a value, or the status that
//! ends its command with the name that the report needs. The name is copied before the step touches the outside, so
//! want of memory for it leaves everything as it was.

ghost use Rattle.std.specs.Str.{IsAscii};
ghost use Rattle.larch_cli.specs.Commands as script;
ghost use Rattle.larch_cli.specs.Steps.{OnFiles, OnOut};

use crate::Status;
use files::{Files, Read, Wrote};
use lar_bytes::{Bytes, Text};
use sinks::{Putting, Sink, put_all};
use std::alloc::Global;

/// Reads the first bytes of the file with this name, at most so many.
pub(crate) fn read_file<F: Files>(
    alloc: Global,
    files: &mut F,
    name: &str,
    most: u64,
) -> Result<Bytes, Status>
    requires { IsAscii name.now }
    ensures { OnFiles (script.fetch name.now most) (F.told files.old) (F.told files.new) result }
{
    let named = Text::copied(alloc, name)?;
    match files.read(alloc, name, most) {
        Ok(Read::Bytes(bytes)) => Ok(bytes),
        Ok(Read::Absent) => Err(Status::Absent(named)),
        Ok(Read::Failed) => Err(Status::FileFault(named)),
        Err(_) => Err(Status::Memory),
    }
}

/// Writes a file of the command.
pub(crate) fn write_file<F: Files>(
    alloc: Global,
    files: &mut F,
    name: &str,
    bytes: &[u8],
) -> Result<(), Status>
    requires { IsAscii name.now }
    ensures { OnFiles (script.save name.now bytes.now) (F.told files.old) (F.told files.new) result }
{
    let written = Text::copied(alloc, name)?;
    match files.write(alloc, name, bytes) {
        Wrote::Done => Ok(()),
        Wrote::Failed => Err(Status::FileFault(written)),
        Wrote::Memory => Err(Status::Memory),
    }
}

/// Puts text on the stream of the command.
pub(crate) fn put_text<S: Sink>(alloc: Global, out: &mut S, text: &[u8]) -> Result<(), Status>
    ensures { OnOut (script.say text.now) (S.told out.old) (S.told out.new) result }
{
    match put_all(alloc, out, text) {
        Putting::Done => Ok(()),
        Putting::Failed => Err(Status::SinkFault),
        Putting::Memory => Err(Status::Memory),
    }
}
