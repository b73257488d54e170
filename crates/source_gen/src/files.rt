//! The files, in order.

ghost use Rattle.std.specs.Prelude.{◌≡◌, ◌<◌, ◌≤◌, ◌^◌, string_bytes, IfOk};
ghost use Rattle.source_gen.specs.Draws.{state_after};
ghost use Rattle.source_gen.specs.Sources as spec;

use crate::draws::Draws;
use crate::texts::{Numbers, main_text, module_name, module_text};
use lar_bytes::{Bytes, Text};
use lar_source::File;
use std::alloc::{AllocError, Global};

// The main file for so many modules.
fn main_file(alloc: Global, modules: u16) -> Result<File, AllocError>
    requires { modules ≤ 255 }
    ensures { IfOk result (λ file. file ≡ spec.main_file modules) }
{
    Ok(File {
        name: Text::copied(alloc, "main.larch")?,
        bytes: bytes_of(main_text(alloc, modules)?),
    })
}

// The bytes of a text.
fn bytes_of(text: String) -> Bytes
    ensures { result ≡ string_bytes text }
{
    Bytes::from_vec(text.into_bytes())
}

// The module that module k calls: the one before, and of module 0 the last.
fn before(modules: u16, k: u16) -> u16
    requires { k < modules }
    ensures { result ≡ spec.before modules k }
{
    if k == 0 { modules - 1 } else { k - 1 }
}

// The file of module k of so many, with the next numbers.
fn module_file(alloc: Global, modules: u16, k: u16, draws: &mut Draws) -> Result<File, AllocError>
    requires { k < modules }
    ensures file { IfOk result (λ file. file ≡ spec.module_file modules draws.old.state k) }
    ensures state { draws.new.state ≡ state_after 3 draws.old.state }
{
    let numbers = Numbers::draw(draws);
    Ok(File {
        name: Text::from_string(alloc, module_name(alloc, k)?)?,
        bytes: bytes_of(module_text(alloc, before(modules, k), &numbers)?),
    })
}

/// The main file and so many modules, 1 to 255, with numbers from a seed below 2^31. It fails only for want of memory.
pub fn sources(alloc: Global, seed: u32, modules: u16) -> Result<Vec<File>, AllocError>
    requires seed { seed < 2 ^ 31 }
    requires some { 1 ≤ modules }
    requires few { modules ≤ 255 }
    ensures { IfOk result (λ files. files.items ≡ spec.files_of seed modules) }
{
    let mut files = Vec::new(alloc);
    files.push(main_file(alloc, modules)?)?;
    let mut draws = Draws::new(seed);
    for k in 0..modules {
        files.push(module_file(alloc, modules, k, &mut draws)?)?;
    }
    Ok(files)
}
