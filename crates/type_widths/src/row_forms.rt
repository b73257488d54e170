//! The form of each row.
ghost use Rattle.std.specs.Prelude.{◌≡◌, ℕ, ◌+◌, ◌<◌, ◌≤◌, List, [], ◌∷◌, length, IfOk, OnOk, drop, slice_get, slice_index_or};
ghost use Rattle.type_table.specs.Rows.{type_at};
ghost use Rattle.type_table.specs.Depth.{fields_of, depth_of, AreFalling};
ghost use Rattle.type_widths.specs.Form.{dot, IsForm, AreForms, IsSum, IsScaled};
ghost use Rattle.type_widths.specs.Level.{level_of, AreLevels, AreDone};
ghost use Rattle.type_table.specs.TypeOf as type;

use crate::level::{deepest, levels};
use crate::linear::{constant, generic, scaled};
use std::alloc::{AllocError, Global};
use type_table::{Row, StructDecl, Types};

/// What a struct's factors give for the arguments in a list.
fn summed(
    alloc: Global,
    types: &Types,
    structs: &[StructDecl],
    forms: &[Vec<u16>],
    level: usize,
    before: usize,
    factors: &[u16],
    list: usize,
) -> Result<Vec<u16>, AllocError>
    requires within { list < length types.now }
    requires early { list < before }
    requires low { level_of (depth_of structs.now) (type_at types.now list) ≤ level }
    requires known { AreDone types.now structs.now level before forms.now }
    ensures { IfOk result (λ new. IsSum (fields_of types.now structs.now) (depth_of structs.now) factors.now (type_at types.now list) new.items) }
{
    let [factor, rest @ ..] = factors else {
        return constant(alloc, 0);
    };
    match types.row(list) {
        Row::More(first, others) => {
            let total = summed(alloc, types, structs, forms, level, before, rest, others)?;
            scaled(alloc, *factor, &total, &forms[first])
        }
        _ => constant(alloc, 0),
    }
}

/// The form of a struct with the arguments in a list, from that of its fields.
fn applied(
    alloc: Global,
    types: &Types,
    structs: &[StructDecl],
    forms: &[Vec<u16>],
    level: usize,
    number: usize,
    fields: &[u16],
    name: usize,
    list: usize,
) -> Result<Vec<u16>, AllocError>
    requires falling { AreFalling types.now structs.now }
    requires within { list < length types.now }
    requires early { list < number }
    requires low { level_of (depth_of structs.now) (type_at types.now list) ≤ level }
    requires known { AreDone types.now structs.now level number forms.now }
    requires size { length fields.now ≡ 17 }
    requires fields { IsForm (fields_of types.now structs.now) (depth_of structs.now) (fields_of types.now structs.now name) fields.now }
    ensures { IfOk result (λ new. IsForm (fields_of types.now structs.now) (depth_of structs.now) (type.struct name (type_at types.now list)) new.items) }
{
    let total = summed(
        alloc,
        types,
        structs,
        forms,
        level,
        number,
        &fields[1..],
        list,
    )?;
    let one = constant(alloc, 1)?;
    scaled(alloc, fields[0], &total, &one)
}

/// The form of a struct with the arguments in a list.
fn struct_form(
    alloc: Global,
    types: &Types,
    structs: &[StructDecl],
    forms: &[Vec<u16>],
    level: usize,
    number: usize,
    name: usize,
    list: usize,
) -> Result<Vec<u16>, AllocError>
    requires falling { AreFalling types.now structs.now }
    requires within { list < length types.now }
    requires early { list < number }
    requires low { level_of (depth_of structs.now) (type_at types.now list) ≤ level }
    requires under { depth_of structs.now name < level }
    requires known { AreDone types.now structs.now level number forms.now }
    ensures { IfOk result (λ new. IsForm (fields_of types.now structs.now) (depth_of structs.now) (type.struct name (type_at types.now list)) new.items) }
{
    match structs.get(name) {
        None => constant(alloc, 0),
        Some(decl) => {
            let fields = &forms[decl.fields];
            applied(
                alloc, types, structs, forms, level, number, fields, name, list,
            )
        }
    }
}

/// The form of a row, where those of lower levels and of earlier rows of this level are known.
fn form(
    alloc: Global,
    types: &Types,
    structs: &[StructDecl],
    forms: &[Vec<u16>],
    level: usize,
    number: usize,
) -> Result<Vec<u16>, AllocError>
    requires falling { AreFalling types.now structs.now }
    requires within { number < length types.now }
    requires here { level ≡ level_of (depth_of structs.now) (type_at types.now number) }
    requires known { AreDone types.now structs.now level number forms.now }
    ensures { IfOk result (λ new. IsForm (fields_of types.now structs.now) (depth_of structs.now) (type_at types.now number) new.items) }
{
    match types.row(number) {
        Row::Int => constant(alloc, 1),
        Row::Bool => constant(alloc, 1),
        Row::Number(_) => constant(alloc, 0),
        Row::End => constant(alloc, 0),
        Row::Param(k) => generic(alloc, k),
        Row::More(first, others) => scaled(alloc, 1, &forms[others], &forms[first]),
        Row::Tuple(parts) => {
            let none = constant(alloc, 0)?;
            scaled(alloc, 1, &none, &forms[parts])
        }
        Row::Struct(name, list) => {
            struct_form(alloc, types, structs, forms, level, number, name, list)
        }
    }
}

/// The form of a row, if it is of this level.
fn put_form(
    alloc: Global,
    types: &Types,
    structs: &[StructDecl],
    levels: &[usize],
    level: usize,
    number: usize,
    forms: &mut Vec<Vec<u16>>,
) -> Result<(), AllocError>
    requires falling { AreFalling types.now structs.now }
    requires within { number < length types.now }
    requires count { length levels.now ≡ length types.now }
    requires levels { AreLevels types.now structs.now levels.now }
    requires known { AreDone types.now structs.now level number forms.old.items }
    ensures { OnOk result (AreDone types.now structs.now level (number + 1) forms.new.items) }
{
    if levels[number] != level {
        return Ok(());
    }
    let new = form(alloc, types, structs, forms, level, number)?;
    forms[number] = new;
    Ok(())
}

/// The forms of this level's rows, in order.
fn forms_of_level(
    alloc: Global,
    types: &Types,
    structs: &[StructDecl],
    levels: &[usize],
    level: usize,
    forms: &mut Vec<Vec<u16>>,
) -> Result<(), AllocError>
    requires falling { AreFalling types.now structs.now }
    requires count { length levels.now ≡ length types.now }
    requires levels { AreLevels types.now structs.now levels.now }
    requires known { AreDone types.now structs.now level 0 forms.old.items }
    ensures { OnOk result (AreDone types.now structs.now (level + 1) 0 forms.new.items) }
{
    for number in 0..types.len() {
        put_form(alloc, types, structs, levels, level, number, forms)?;
    }
    Ok(())
}

/// As many empty forms.
fn empty(alloc: Global, count: usize) -> Result<Vec<Vec<u16>>, AllocError>
    ensures { IfOk result (λ forms. length forms.items ≡ count) }
{
    let mut forms = Vec::new(alloc);
    for _ in 0..count {
        forms.push(Vec::new(alloc))?;
    }
    Ok(forms)
}

/// The form of each row. Each row is gone into once, whatever its type is as a tree.
pub fn forms(
    alloc: Global,
    types: &Types,
    structs: &[StructDecl],
) -> Result<Vec<Vec<u16>>, AllocError>
    requires { AreFalling types.now structs.now }
    ensures { IfOk result (λ forms. AreForms types.now structs.now forms.items) }
{
    let levels = levels(alloc, types, structs)?;
    let last = deepest(&levels).min(64);
    let mut forms = empty(alloc, types.len())?;
    for level in 0..last + 1 {
        forms_of_level(alloc, types, structs, &levels, level, &mut forms)?;
    }
    Ok(forms)
}
