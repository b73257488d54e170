//! The command that links objects. Every file is read, in the order of the words, before a bad one among them is
//! reported, and nothing is written before the image stands. A file's bytes are let go once they are decoded, and no
//! file behind a bad one is. What the line says is true when it is put.

ghost use Rattle.std.specs.Prelude.{◌≡◌, ◌++◌, ◌<◌, ◌≤◌, ◌^◌, [], Ok, codes, length, string_bytes, IfOk};
ghost use Rattle.std.specs.Fmt.{decimal};
ghost use Rattle.object_format.specs.ObjectReading.{object_at};
ghost use Rattle.symbol_link.specs.Linked.{linked};
ghost use Rattle.larch_cli.specs.Commands.{gather, link_script, linked_or};
ghost use Rattle.larch_cli.specs.Spelled as spec;
ghost use Rattle.larch_cli.specs.Steps.{Idly, OnBoth, OnFiles, objects_shown};

use crate::Status;
use crate::loading::{MOST_ASKED, object_of};
use crate::steps::{put_text, read_file, write_file};
use files::Files;
use lar_bytes::{Bytes, OrMemory, Text};
use object_format::{Image, Object, write_image};
use sinks::Sink;
use std::alloc::{AllocError, Global};
use symbol_link::link;
use words::Names;

// What files come to with one more: their objects, or the status of the first that spells none.
fn with_file(
    alloc: Global,
    decoded: Result<Vec<Object>, Status>,
    name: &Text,
    bytes: Bytes,
) -> Result<Result<Vec<Object>, Status>, AllocError>
    ensures { IfOk result (λ next. objects_shown next ≡ spec.with_file (objects_shown decoded) name.now (spec.limited object_at bytes)) }
{
    let mut objects = match decoded {
        Ok(objects) => objects,
        Err(status) => return Ok(Err(status)),
    };
    match object_of(alloc, bytes) {
        Ok(object) => {
            objects.push(object)?;
            Ok(Ok(objects))
        }
        Err(OrMemory::Refused(fault)) => {
            let name = Text::copied(alloc, name.as_str())?;
            Ok(Err(Status::BadFile(name, fault)))
        }
        Err(OrMemory::Memory) => Err(AllocError),
    }
}

// Reads all of the files.
fn read_objects<F: Files>(
    alloc: Global,
    files: &mut F,
    names: &[Text],
) -> Result<Vec<Object>, Status>
    ensures follows { OnFiles (gather (Ok []) names.now) (F.told files.old) (F.told files.new) (objects_shown result) }
    ensures short { IfOk result (λ objects. length objects.items ≤ length names.now) }
{
    let mut decoded = Ok(Vec::new(alloc));
    for name in names {
        let bytes = read_file(alloc, files, name.as_str(), MOST_ASKED)?;
        decoded = with_file(alloc, decoded, name, bytes)?;
    }
    decoded
}

fn link_objects(alloc: Global, objects: &[Object]) -> Result<Image, Status>
    requires { length objects.now < 2 ^ 32 }
    ensures { Idly (linked_or (linked objects.now)) result }
{
    match link(alloc, objects) {
        Ok(image) => Ok(image),
        Err(OrMemory::Refused(fault)) => Err(Status::LinkFault(fault)),
        Err(OrMemory::Memory) => Err(Status::Memory),
    }
}

fn functions_line(alloc: Global, count: usize) -> Result<String, AllocError>
    ensures { IfOk result (λ line. string_bytes line ≡ codes "functions " ++ (decimal count ++ codes "\n")) }
{
    format!(in alloc; "functions {count}\n")
}

/// Links the objects in these files into the image of the output's name, and puts the line of functions.
pub(crate) fn link_files<F: Files, S: Sink>(
    alloc: Global,
    names: &Names,
    output: &Text,
    files: &mut F,
    out: &mut S,
) -> Result<(), Status>
    ensures { OnBoth (link_script names.now output.now) (F.told files.old) (F.told files.new) (S.told out.old) (S.told out.new) result }
{
    let objects = read_objects(alloc, files, names.as_slice())?;
    let image = link_objects(alloc, objects.as_slice())?;
    let line = functions_line(alloc, image.functions().len())?;
    let bytes = write_image(alloc, &image)?;
    write_file(alloc, files, output.as_str(), bytes.as_slice())?;
    put_text(alloc, out, line.as_bytes())
}
