//! The sum of all sources.

ghost use Rattle.std.specs.Prelude.{◌≡◌, option_map, IfOk};
ghost use Rattle.build_front.specs.Front as spec;

use lar_source::{Code, Diag, File, Text, Texts};
use std::alloc::{AllocError, Global};

// Bytes of all sources at most.
const MAX_BYTES: usize = 16_777_216;

/// The first file with which the sum of all files passes the limit.
pub(crate) fn passing<'a>(files: &'a [File]) -> Option<&'a File>
    ensures { option_map (λ file. file.now) result ≡ spec.passing spec.max_bytes files.now }
{
    let mut left = MAX_BYTES;
    for file in files {
        let bytes = file.bytes.len();
        if left < bytes {
            return Some(file);
        }
        left -= bytes;
    }
    None
}

/// The diagnostic of that file.
pub(crate) fn past_limit(alloc: Global, file: &File) -> Result<Diag, AllocError>
    ensures { IfOk result (λ d. d ≡ spec.past_limit file.now) }
{
    let mut args = Texts::new(alloc);
    args.push(Text::copied(alloc, "16777216")?)?;
    let name = Text::copied(alloc, file.name.as_str())?;
    Ok(Diag::new(Code::PastLimit, name, 1, 1, args))
}
