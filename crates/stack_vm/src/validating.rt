//! The first fault of an image, or the greatest heights of its functions.

ghost use Rattle.std.specs.Prelude.{◌≡◌, map, slice_get};
ghost use Rattle.lar_bytes.specs.Answers.{Answers};
ghost use Rattle.object_format.specs.Reading.{unless};
ghost use Rattle.object_format.specs.Version.{functions_place};
ghost use Rattle.stack_vm.specs.Heights.{greatest_of};
ghost use Rattle.stack_vm.specs.Faults.{entry_fault, functions_fault};

use crate::checking::{Scratch, check};
use lar_bytes::OrMemory;
use object_format::{BadFile, Image, Version, What};
use std::alloc::Global;

/// The fault of an image's entry. The field stands behind magic and version.
pub fn entry_fault(image: &Image) -> Option<BadFile>
    ensures { result ≡ entry_fault (slice_get image.now.functions image.now.entry) }
{
    let functions = image.functions();
    let entry = &functions[image.entry() as usize];
    if entry.params() == 0 && entry.result() == 0 {
        None
    } else {
        Some(BadFile {
            at: 6,
            what: What::Entry,
        })
    }
}

/// The greatest height of each function of an image, or the first fault of them.
pub fn greatest_heights(
    alloc: Global,
    image: &Image,
    version: Version,
) -> Result<Vec<u32>, OrMemory<BadFile>>
    ensures { Answers (λ most. most.items) result (unless (functions_fault image.now.functions version functions_place image.now.functions) (map (greatest_of image.now.functions) image.now.functions)) }
{
    let functions = image.functions();
    let mut scratch = Scratch::new(alloc);
    let mut all = Vec::new(alloc);
    let mut at = 14;
    for function in functions {
        let most = check(&mut scratch, functions, function, version, at)?;
        all.push(most)?;
        at += version.code_offset() + function.code().len() as u64;
    }
    Ok(all)
}
