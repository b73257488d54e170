//! The command that lists the codegen units of sources.

ghost use Rattle.std.specs.Prelude.{◌≡◌, ◌≤◌, map};
ghost use Rattle.build_units.specs.Listed.{listed};
ghost use Rattle.lar_typed.specs.TreeView.{plain};
ghost use Rattle.larch_cli.specs.Commands.{or_told, units_script};
ghost use Rattle.larch_cli.specs.Steps.{Idly, OnBoth, lines_shown};

use crate::Status;
use crate::sources::{read_sources, typed};
use crate::steps::put_text;
use build_units::listed;
use files::Files;
use lar_bytes::OrMemory;
use lar_source::File;
use lar_typed::TypedTree;
use sinks::Sink;
use std::alloc::Global;
use words::{Sources, UnitLimit};

// The lines of the units of a program of these files, or the diagnostic of its first call that is refused.
fn lines(
    alloc: Global,
    tree: &mut TypedTree,
    sources: &[File],
    limit: u16,
) -> Result<Vec<u8>, Status>
    requires { 1 ≤ limit }
    ensures { Idly (or_told (listed (map (λ f. f.name) sources.now) limit (plain tree.old))) (lines_shown result) }
{
    match listed(alloc, tree, sources, limit) {
        Ok(text) => Ok(text),
        Err(OrMemory::Refused(diag)) => Err(Status::Diagnostic(diag)),
        Err(OrMemory::Memory) => Err(Status::Memory),
    }
}

/// Lists the codegen units of the sources with these names, at most so many: a line for each, in byte order of names.
pub(crate) fn units<F: Files, S: Sink>(
    alloc: Global,
    names: &Sources,
    limit: &UnitLimit,
    files: &mut F,
    out: &mut S,
) -> Result<(), Status>
    ensures { OnBoth (units_script names.now limit.now) (F.told files.old) (F.told files.new) (S.told out.old) (S.told out.new) result }
{
    let sources = read_sources(alloc, files, names.as_slice())?;
    let mut tree = typed(alloc, &sources)?;
    let text = lines(alloc, &mut tree, &sources, limit.get())?;
    put_text(alloc, out, &text)
}
