//! The command that generates sources: the files of the generator in order, and then the line that says how many.

ghost use Rattle.std.specs.Prelude.{◌≡◌, ◌++◌, codes, string_bytes, IfOk};
ghost use Rattle.std.specs.Fmt.{decimal};
ghost use Rattle.larch_cli.specs.Commands.{gen_script, save_all};
ghost use Rattle.larch_cli.specs.Steps.{OnBoth, OnFiles};

use crate::Status;
use crate::steps::{put_text, write_file};
use files::Files;
use lar_source::File;
use sinks::Sink;
use source_gen::sources;
use std::alloc::{AllocError, Global};
use words::Recipe;

// Writes these files, in order.
fn write_all<F: Files>(alloc: Global, files: &mut F, sources: &[File]) -> Result<(), Status>
    ensures { OnFiles (save_all sources.now) (F.told files.old) (F.told files.new) result }
{
    for source in sources {
        write_file(alloc, files, source.name.as_str(), source.bytes.as_slice())?;
    }
    Ok(())
}

fn wrote_line(alloc: Global, count: usize) -> Result<String, AllocError>
    ensures { IfOk result (λ line. string_bytes line ≡ codes "wrote " ++ (decimal count ++ codes " files\n")) }
{
    format!(in alloc; "wrote {count} files\n")
}

/// Writes the sources that are generated from a seed, and puts how many there are.
pub(crate) fn generate<F: Files, S: Sink>(
    alloc: Global,
    recipe: &Recipe,
    files: &mut F,
    out: &mut S,
) -> Result<(), Status>
    ensures { OnBoth (gen_script recipe.now) (F.told files.old) (F.told files.new) (S.told out.old) (S.told out.new) result }
{
    let sources = sources(alloc, recipe.seed(), recipe.modules())?;
    let line = wrote_line(alloc, sources.len())?;
    write_all(alloc, files, sources.as_slice())?;
    put_text(alloc, out, line.as_bytes())
}
