//! The text that a type is printed as.
ghost use Rattle.std.specs.Prelude.{◌≡◌, ◌++◌, ◌<◌, length, IfOk, OnOk};
ghost use Rattle.type_table.specs.Rows.{type_at};
ghost use Rattle.type_sizes.specs.Spelling.{struct_text, generic_text, comma, text_of};

use crate::line::Line;
use lar_bytes::Text;
use std::alloc::{AllocError, Global};
use type_table::{Row, StructDecl, Types};

fn put_struct(structs: &[StructDecl], name: usize, out: &mut Line) -> Result<(), AllocError>
    ensures { OnOk result (out.new ≡ out.old ++ struct_text structs.now name) }
{
    match structs.get(name) {
        None => Ok(()),
        Some(decl) => {
            out.put(decl.module.as_str())?;
            out.put("::")?;
            out.put(decl.name.as_str())
        }
    }
}

fn put_generic(generics: &[Text], place: usize, out: &mut Line) -> Result<(), AllocError>
    ensures { OnOk result (out.new ≡ out.old ++ generic_text generics.now place) }
{
    match generics.get(place) {
        None => Ok(()),
        Some(name) => out.put(name.as_str()),
    }
}

// The comma before what follows in a list, if something does.
fn put_comma(types: &Types, others: usize, out: &mut Line) -> Result<(), AllocError>
    requires { others < length types.now }
    ensures { OnOk result (out.new ≡ out.old ++ comma (type_at types.now others)) }
{
    match types.row(others) {
        Row::End => Ok(()),
        _ => out.put(","),
    }
}

fn put_type(
    types: &Types,
    structs: &[StructDecl],
    generics: &[Text],
    number: usize,
    out: &mut Line,
) -> Result<(), AllocError>
    requires { number < length types.now }
    ensures { OnOk result (out.new ≡ out.old ++ text_of structs.now generics.now (type_at types.now number)) }
{
    match types.row(number) {
        Row::Int => out.put("i64"),
        Row::Bool => out.put("bool"),
        Row::Param(place) => put_generic(generics, place, out),
        Row::Number(value) => out.put_number(value),
        Row::End => Ok(()),
        Row::More(first, others) => {
            put_type(types, structs, generics, first, out)?;
            put_comma(types, others, out)?;
            put_type(types, structs, generics, others, out)
        }
        Row::Tuple(parts) => {
            out.put("(")?;
            put_type(types, structs, generics, parts, out)?;
            out.put(")")
        }
        Row::Struct(name, list) => {
            put_struct(structs, name, out)?;
            match types.row(list) {
                Row::End => Ok(()),
                _ => {
                    out.put("<")?;
                    put_type(types, structs, generics, list, out)?;
                    out.put(">")
                }
            }
        }
    }
}

/// The text of a type, of which a list's is that of its members with commas between them; `room` bytes are reserved before the
/// first is put. Generics are printed by their names.
pub fn type_text(
    alloc: Global,
    types: &Types,
    structs: &[StructDecl],
    generics: &[Text],
    number: usize,
    room: usize,
) -> Result<Text, AllocError>
    requires { number < length types.now }
    ensures { IfOk result (λ text. text ≡ text_of structs.now generics.now (type_at types.now number)) }
{
    let mut line = Line::with_room(alloc, room)?;
    put_type(types, structs, generics, number, &mut line)?;
    line.into_text(alloc)
}
