//! The sources of a command: they are read in the order of the words, all of them before the first is looked at. No more bytes are
//! asked for than one past the limit of their sum, so that sources that are too long are seen to be so.

ghost use Rattle.std.specs.Prelude.{◌≡◌, ◌∷◌, ◌++◌, ◌≤◌, [], length, map, IfOk};
ghost use Rattle.build_front.specs.Front.{fronted};
ghost use Rattle.build_front.specs.Parsed.{AreNamed};
ghost use Rattle.larch_cli.specs.Commands.{fetch_sources, or_told};
ghost use Rattle.larch_cli.specs.Steps.{Idly, OnFiles, sources_shown, tree_shown};

use crate::Status;
use crate::steps::read_file;
use build_front::front;
use files::Files;
use lar_bytes::{OrMemory, Text};
use lar_source::File;
use lar_typed::TypedTree;
use std::alloc::{AllocError, Global};

// One more than all sources may have.
const MOST_OF_SOURCES: u64 = 16_777_217;

// The sources, and one more.
fn with_source(mut sources: Vec<File>, source: File) -> Result<Vec<File>, AllocError>
    ensures { IfOk result (λ more. more.items ≡ sources.items ++ source ∷ []) }
{
    sources.push(source)?;
    Ok(sources)
}

/// Reads the sources with these names.
pub(crate) fn read_sources<F: Files>(
    alloc: Global,
    files: &mut F,
    names: &[Text],
) -> Result<Vec<File>, Status>
    ensures follows { OnFiles (fetch_sources names.now) (F.told files.old) (F.told files.new) (sources_shown result) }
    ensures named { IfOk result (λ sources. map (λ f. f.name) sources.items ≡ names.now) }
{
    let mut sources = Vec::with_capacity(alloc, names.len())?;
    let mut left = MOST_OF_SOURCES;
    for name in names {
        let named = Text::copied(alloc, name.as_str())?;
        let bytes = read_file(alloc, files, name.as_str(), left)?;
        left = left.saturating_sub(bytes.len() as u64);
        sources = with_source(sources, File { name: named, bytes })?;
    }
    Ok(sources)
}

/// The program of these sources with its types, or the first diagnostic.
pub(crate) fn typed(alloc: Global, sources: &[File]) -> Result<TypedTree, Status>
    requires few { length sources.now ≤ 256 }
    requires named { AreNamed sources.now }
    ensures { Idly (or_told (fronted sources.now)) (tree_shown result) }
{
    match front(alloc, sources) {
        Ok(tree) => Ok(tree),
        Err(OrMemory::Refused(diag)) => Err(Status::Diagnostic(diag)),
        Err(OrMemory::Memory) => Err(Status::Memory),
    }
}
