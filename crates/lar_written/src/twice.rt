//! Names that are defined twice among the names of one declaration.
ghost use Rattle.std.specs.Prelude.{◌≡◌, [], ◌∷◌, map, OnOk};
ghost use Rattle.lar_rules.specs.Fault.{least};
ghost use Rattle.lar_rules.specs.Twice as rules;
ghost use Rattle.lar_written.specs.Names.{names, twice_if};

use lar_told::First;
use lar_tree::{Code, Name, Text};
use std::alloc::{AllocError, Global};

fn is_among(earlier: &[&Name], text: &Text) -> bool
    ensures { result ≡ rules.is_among (names earlier.now) text.now }
{
    for name in earlier {
        if name.text == *text {
            return true;
        }
    }
    false
}

fn note_if_twice(
    alloc: Global,
    first: &mut First,
    file: usize,
    earlier: &[&Name],
    name: &Name,
) -> Result<(), AllocError>
    ensures { OnOk result (first.new ≡ least first.old (twice_if file (names earlier.now) name.now)) }
{
    if is_among(earlier, &name.text) {
        return first.note_name(alloc, file, name.span, Code::DefinedTwice, &name.text);
    }
    Ok(())
}

/// Notes each name that an earlier one has. There are at most 64 of them, so they are looked through.
pub fn note_repeated(
    alloc: Global,
    first: &mut First,
    file: usize,
    all: &[&Name],
) -> Result<(), AllocError>
    ensures { OnOk result (first.new ≡ least first.old (rules.repeated file [] (names all.now))) }
{
    for at in 0..all.len() {
        note_if_twice(alloc, first, file, &all[..at], all[at])?;
    }
    Ok(())
}
