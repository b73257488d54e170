//! The command that checks sources: their tokens, their trees, and their names and types.

ghost use Rattle.larch_cli.specs.Commands.{check_script};
ghost use Rattle.larch_cli.specs.Steps.{OnBoth};

use crate::Status;
use crate::sources::{read_sources, typed};
use crate::steps::put_text;
use files::Files;
use sinks::Sink;
use std::alloc::Global;
use words::Sources;

/// Checks the sources with these names, and says that they are right.
pub(crate) fn check<F: Files, S: Sink>(
    alloc: Global,
    names: &Sources,
    files: &mut F,
    out: &mut S,
) -> Result<(), Status>
    ensures { OnBoth (check_script names.now) (F.told files.old) (F.told files.new) (S.told out.old) (S.told out.new) result }
{
    let sources = read_sources(alloc, files, names.as_slice())?;
    typed(alloc, &sources)?;
    put_text(alloc, out, b"ok\n")
}
