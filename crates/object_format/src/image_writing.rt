//! The one spelling of an image, in the newest version. Numbers are big-endian.

ghost use Rattle.std.specs.Prelude.{◌≡◌, ◌++◌, [], IfOk, OnOk};
ghost use Rattle.object_format.specs.Image.{image_spelling, function_spelling};
ghost use Rattle.object_format.specs.declared.version.Version.TheVariants.{Two};

use crate::{Image, ImageFn};
use lar_bytes::Bytes;
use std::alloc::{AllocError, Global};

/// No bytes yet, with room for so many.
pub(crate) fn bytes_with_room(alloc: Global, room: usize) -> Result<Bytes, AllocError>
    ensures { IfOk result (λ bytes. bytes ≡ []) }
{
    Ok(Bytes::from_vec(Vec::with_capacity(alloc, room)?))
}

pub(crate) fn write_function(out: &mut Bytes, function: &ImageFn) -> Result<(), AllocError>
    ensures { OnOk result (out.new ≡ out.old ++ function_spelling Two function.now) }
{
    let code = function.code();
    let len = code.len() as u32;
    out.append(&[function.params(), function.result(), function.slots()])?;
    out.append(&len.to_be_bytes())?;
    out.append(code)
}

/// How many bytes the functions of an image have in its spelling, where a machine's number can say it.
fn room_for(functions: &[ImageFn]) -> usize {
    let mut room = 0usize;
    for function in functions {
        room = room.saturating_add(function.code().len() + 7);
    }
    room
}

/// The one spelling of an image.
pub fn write_image(alloc: Global, image: &Image) -> Result<Bytes, AllocError>
    ensures { IfOk result (λ bytes. bytes ≡ image_spelling image.now) }
{
    let functions = image.functions();
    let count = functions.len() as u32;
    let mut out = bytes_with_room(alloc, room_for(functions).saturating_add(14))?;
    out.append(b"LRPX\x00\x02")?;
    out.append(&image.entry().to_be_bytes())?;
    out.append(&count.to_be_bytes())?;
    for function in functions {
        write_function(&mut out, function)?;
    }
    Ok(out)
}
