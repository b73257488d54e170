//! The symbol of an instance: the path of its function and, in angles, its arguments.
ghost use Rattle.std.specs.Prelude.{◌≡◌, ◌<◌, [], ◌++◌, length, OnOk, IfOk, string_bytes};
ghost use Rattle.std.specs.Str.{IsAscii};
ghost use Rattle.type_table.specs.Rows.{type_at};
ghost use Rattle.type_sizes.specs.Spelling.{text_of, angled};
ghost use Rattle.mono_items.specs.Symbols.{path_of, symbol_of};

use crate::Instance;
use lar_bytes::Text;
use lar_typed::{TypedFunction, TypedTree};
use std::alloc::{AllocError, Global};
use type_sizes::type_text;
use type_table::{Row, StructDecl, Types};

fn put(text: &mut String, piece: &str) -> Result<(), AllocError>
    requires text { IsAscii (string_bytes text.old) }
    requires piece { IsAscii piece.now }
    ensures put { OnOk result (string_bytes text.new ≡ string_bytes text.old ++ piece.now) }
    ensures ascii { OnOk result (IsAscii (string_bytes text.new)) }
{
    text.push_str(piece)
}

fn put_path(text: &mut String, function: &TypedFunction) -> Result<(), AllocError>
    requires { IsAscii (string_bytes text.old) }
    ensures put { OnOk result (string_bytes text.new ≡ string_bytes text.old ++ path_of function.now) }
    ensures ascii { OnOk result (IsAscii (string_bytes text.new)) }
{
    put(text, function.module.as_str())?;
    put(text, "::")?;
    put(text, function.name.as_str())
}

fn put_arguments(
    alloc: Global,
    text: &mut String,
    types: &Types,
    structs: &[StructDecl],
    list: usize,
) -> Result<(), AllocError>
    requires text { IsAscii (string_bytes text.old) }
    requires list { list < length types.now }
    ensures put { OnOk result (string_bytes text.new ≡ string_bytes text.old ++ angled (type_at types.now list) (text_of structs.now [] (type_at types.now list))) }
    ensures ascii { OnOk result (IsAscii (string_bytes text.new)) }
{
    match types.row(list) {
        Row::End => Ok(()),
        _ => {
            let generics: [Text; 0] = [];
            let arguments = type_text(alloc, types, structs, &generics, list, 0)?;
            put(text, "<")?;
            put(text, arguments.as_str())?;
            put(text, ">")
        }
    }
}

/// The symbol of an instance.
pub fn symbol(alloc: Global, typed: &TypedTree, instance: Instance) -> Result<Text, AllocError>
    requires function { instance.function < length typed.now.functions }
    requires arguments { instance.arguments < length typed.now.rows }
    ensures { IfOk result (λ text. text ≡ symbol_of typed.now instance) }
{
    let mut text = String::new(alloc);
    put_path(&mut text, &typed.functions()[instance.function])?;
    put_arguments(
        alloc,
        &mut text,
        typed.types(),
        typed.structs(),
        instance.arguments,
    )?;
    Text::from_string(alloc, text)
}
