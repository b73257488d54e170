//! How long the texts of types are.
ghost use Rattle.std.specs.Prelude.{◌≡◌, ℕ, List, ◌<◌, ◌≤◌, length, min, ◌+◌, ◌-◌, ◌^◌, OnOk};
ghost use Rattle.std.specs.Fmt.{signed_decimal};
ghost use Rattle.type_table.specs.Rows.{type_at};
ghost use Rattle.type_sizes.specs.Spelling.{struct_text, generic_text, comma, angled, text_of};
ghost use Rattle.type_sizes.specs.Lengths.{AreLengths};

use itoa::Buffer;
use lar_bytes::Text;
use std::alloc::AllocError;
use type_table::{Row, StructDecl, Types};

fn number_length(value: i64) -> usize
    ensures { result ≡ length (signed_decimal value) }
{
    let mut buffer = Buffer::new();
    buffer.format(value).len()
}

fn struct_length(structs: &[StructDecl], name: usize) -> usize
    ensures { result ≡ min (length (struct_text structs.now name)) (2 ^ 64 - 1) }
{
    match structs.get(name) {
        None => 0,
        Some(decl) => {
            let path = decl.module.len().saturating_add(2);
            path.saturating_add(decl.name.len())
        }
    }
}

fn generic_length(generics: &[Text], place: usize) -> usize
    ensures { result ≡ length (generic_text generics.now place) }
{
    match generics.get(place) {
        None => 0,
        Some(name) => name.len(),
    }
}

fn comma_length(types: &Types, others: usize) -> usize
    requires { others < length types.now }
    ensures { result ≡ length (comma (type_at types.now others)) }
{
    match types.row(others) {
        Row::End => 0,
        _ => 1,
    }
}

/// The length of a list of arguments with its angles, from its own.
fn angled_length(types: &Types, list: usize, inner: usize) -> usize
    requires { list < length types.now }
    ensures { (text : List ℕ) → inner ≡ min (length text) (2 ^ 64 - 1) → result ≡ min (length (angled (type_at types.now list) text)) (2 ^ 64 - 1) }
{
    match types.row(list) {
        Row::End => 0,
        _ => inner.saturating_add(2),
    }
}

/// The length of a row's text, where those of earlier rows are known.
fn text_length(
    types: &Types,
    structs: &[StructDecl],
    generics: &[Text],
    lengths: &[usize],
    number: usize,
) -> usize
    requires within { number < length types.now }
    requires next { number ≡ length lengths.now }
    requires known { AreLengths types.now structs.now generics.now lengths.now }
    ensures { result ≡ min (length (text_of structs.now generics.now (type_at types.now number))) (2 ^ 64 - 1) }
{
    match types.row(number) {
        Row::Int => 3,
        Row::Bool => 4,
        Row::Param(place) => generic_length(generics, place),
        Row::Number(value) => number_length(value),
        Row::End => 0,
        Row::More(first, others) => {
            let front = lengths[first].saturating_add(comma_length(types, others));
            front.saturating_add(lengths[others])
        }
        Row::Tuple(parts) => lengths[parts].saturating_add(2),
        Row::Struct(name, list) => {
            let list = angled_length(types, list, lengths[list]);
            struct_length(structs, name).saturating_add(list)
        }
    }
}

/// The length of each row's text, those of new rows after the ones that are known; the last value stands for it and all above.
pub fn lengths(
    types: &Types,
    structs: &[StructDecl],
    generics: &[Text],
    known: &mut Vec<usize>,
) -> Result<(), AllocError>
    requires len { length known.old.items ≤ length types.now }
    requires known { AreLengths types.now structs.now generics.now known.old.items }
    ensures len { OnOk result (length known.new.items ≡ length types.now) }
    ensures known { AreLengths types.now structs.now generics.now known.new.items }
{
    for number in known.len()..types.len() {
        let length = text_length(types, structs, generics, known, number);
        known.push(length)?;
    }
    Ok(())
}
