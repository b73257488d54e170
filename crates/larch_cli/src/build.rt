//! The command that builds. Its steps are a row: the sources are read and checked before anything is written, the image is
//! whole before its write, and the line of units comes last, so that what it says is true when it is put.

ghost use Rattle.std.specs.Prelude.{◌≡◌, ◌≤◌, length, IfOk, IfSome};
ghost use Rattle.std.specs.Option.{option_map};
ghost use Rattle.object_format.specs.Image.{image_spelling};
ghost use Rattle.larch_cli.specs.Commands.{build_script, or_stop};
ghost use Rattle.larch_cli.specs.Spelled.{accepted};
ghost use Rattle.larch_cli.specs.Steps.{Idly, OnBoth, numbers_shown};
ghost use Rattle.larch_cli.specs.ThinImage.{thin_image};
ghost use Rattle.larch_cli.specs.declared.status.Status.TheVariants.{Unsupported};

use crate::sources::{read_sources, typed};
use crate::steps::{put_text, write_file};
use crate::{Status, image_of_prints};
use files::Files;
use lar_bytes::Bytes;
use lar_lexer::thin;
use lar_source::File;
use object_format::write_image;
use sinks::Sink;
use std::alloc::{AllocError, Global};
use words::Sources;

// The numbers that sources print, where they are one file in the thin form.
fn accept(alloc: Global, sources: &[File]) -> Result<Option<Vec<i64>>, AllocError>
    ensures numbers { IfOk result (λ answer. option_map (λ numbers. numbers.items) answer ≡ accepted sources.now) }
    ensures count { IfOk result (λ answer. IfSome answer (λ numbers. length numbers.items ≤ 1000)) }
{
    match sources {
        [file] => thin(alloc, file),
        _ => Ok(None),
    }
}

fn numbers_of(alloc: Global, sources: &[File]) -> Result<Vec<i64>, Status>
    ensures follows { Idly (or_stop Unsupported (accepted sources.now)) (numbers_shown result) }
    ensures count { IfOk result (λ numbers. length numbers.items ≤ 1000) }
{
    match accept(alloc, sources) {
        Ok(Some(numbers)) => Ok(numbers),
        Ok(None) => Err(Status::Unsupported),
        Err(_) => Err(Status::Memory),
    }
}

// The bytes of the image that prints these numbers.
fn image_bytes(alloc: Global, numbers: &[i64]) -> Result<Bytes, AllocError>
    requires { length numbers.now ≤ 1000 }
    ensures { IfOk result (λ bytes. bytes ≡ image_spelling (thin_image numbers.now)) }
{
    let image = image_of_prints(alloc, numbers)?;
    write_image(alloc, &image)
}

/// Builds the sources with these names into the image `a.lrpx`, and puts the line of units.
pub(crate) fn build<F: Files, S: Sink>(
    alloc: Global,
    names: &Sources,
    files: &mut F,
    out: &mut S,
) -> Result<(), Status>
    ensures { OnBoth (build_script names.now) (F.told files.old) (F.told files.new) (S.told out.old) (S.told out.new) result }
{
    let sources = read_sources(alloc, files, names.as_slice())?;
    typed(alloc, &sources)?;
    let numbers = numbers_of(alloc, &sources)?;
    let image = image_bytes(alloc, &numbers)?;
    write_file(alloc, files, "a.lrpx", image.as_slice())?;
    put_text(alloc, out, b"units 1 made 1 reused 0\n")
}
