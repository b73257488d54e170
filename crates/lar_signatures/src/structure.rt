//! Signatures of structs.
ghost use Rattle.std.specs.Prelude.{◌≡◌, ℕ, [], ◌++◌, map, IfOk, OnOk};
ghost use Rattle.type_table.specs.Rows.{Keeps};
ghost use Rattle.lar_tree.specs.ItemView.{struct_view};
ghost use Rattle.lar_rules.specs.Fault.{least};
ghost use Rattle.lar_rules.specs.Twice.{repeated};
ghost use Rattle.lar_names.specs.Items.{struct_item};
ghost use Rattle.lar_names.specs.NamesView.{names_view, scope_lists};
ghost use Rattle.lar_names.specs.Numbered.{struct_at, structs};
ghost use Rattle.lar_written.specs.Members.{fields_in};
ghost use Rattle.lar_written.specs.Sites.{generics_view};
ghost use Rattle.lar_signatures.specs.Depths.{AreDepths, IsDepth, nested_if};
ghost use Rattle.lar_signatures.specs.EachStands.{EachStands};
ghost use Rattle.lar_signatures.specs.Noted.{faults_of_all, faults_of_struct};
ghost use Rattle.lar_signatures.specs.Signatures.{StructStands};

use crate::declared::generic_names;
use lar_names::{Names, StructItem};
use lar_told::First;
use lar_tree::{Code, Name};
use lar_written::{
    Generics, Member, Site, all_members, generics_of_struct, member_names, note_repeated,
};
use std::alloc::{AllocError, Global};
use type_table::Types;

/// Structs of a chain at most.
const MAX_CHAIN: usize = 64;

/// What is known of a struct where it is named: its fields in declared order, each with its type where that is known. The types may
/// have the struct's own generics.
#[derive(Drop)]
pub struct StructSignature<'a> {
    pub fields: Vec<Member<'a>>,
}

/// Notes names that two generics or two fields have.
fn note_names(
    alloc: Global,
    first: &mut First,
    item: &StructItem,
    generics: &Generics,
) -> Result<(), AllocError>
    ensures { OnOk result (first.new ≡ least first.old (repeated item.now.file [] (map (λ g. g.name) (generics_view generics.now)) ++ repeated item.now.file [] (map (λ f. f.0) (fields_in ((item.now.it).now).fields)))) }
{
    note_repeated(alloc, first, item.file, &generic_names(alloc, generics)?)?;
    note_repeated(
        alloc,
        first,
        item.file,
        &member_names(alloc, &item.it.fields)?,
    )
}

/// Notes a struct that begins too long a chain.
fn note_nesting(
    alloc: Global,
    first: &mut First,
    file: usize,
    name: &Name,
    depth: usize,
) -> Result<(), AllocError>
    ensures { OnOk result (first.new ≡ least first.old (nested_if file name.now depth)) }
{
    if depth == MAX_CHAIN {
        return first.note_name(alloc, file, name.span, Code::NestedTooDeep, &name.text);
    }
    Ok(())
}

/// Reads a struct that so many others follow; its faults are noted.
fn read_struct<'a>(
    alloc: Global,
    types: &mut Types,
    first: &mut First,
    names: &Names<'a>,
    item: &StructItem<'a>,
    depth: usize,
) -> Result<StructSignature<'a>, AllocError>
    ensures kept { Keeps types.old types.new }
    ensures of { IfOk result (λ s. (n : ℕ) → StructStands types.new (names_view names.now) s (struct_at n (struct_item (scope_lists names.now) item.now))) }
    ensures told { OnOk result ((n : ℕ) → IsDepth (names_view names.now) (struct_at n (struct_item (scope_lists names.now) item.now)) depth
        → first.new ≡ least first.old (faults_of_struct (names_view names.now) n (struct_item (scope_lists names.now) item.now))) }
{
    let generics = generics_of_struct(alloc, item.it)?;
    note_names(alloc, first, item, &generics)?;
    let site = Site {
        names,
        file: item.file,
        scope: item.scope,
        generics: &generics,
    };
    let fields = all_members(alloc, types, first, &site, &item.it.fields)?;
    note_nesting(alloc, first, item.file, &item.it.name, depth)?;
    Ok(StructSignature { fields })
}

/// The signatures of all structs by number; the faults of structs are noted. `depths` says how many structs follow each.
pub(crate) fn read_structs<'a>(
    alloc: Global,
    types: &mut Types,
    first: &mut First,
    names: &Names<'a>,
    depths: &[usize],
) -> Result<Vec<StructSignature<'a>>, AllocError>
    requires { AreDepths (names_view names.now) depths.now }
    ensures kept { Keeps types.old types.new }
    ensures of { IfOk result (λ out. EachStands (λ n s p. StructStands types.new (names_view names.now) s (struct_at n p)) 0 out.items (structs (names_view names.now))) }
    ensures told { OnOk result (first.new ≡ least first.old (faults_of_all (faults_of_struct (names_view names.now)) 0 (structs (names_view names.now)))) }
{
    let mut out = Vec::new(alloc);
    for (number, item) in names.structs().iter().enumerate() {
        let signature = read_struct(alloc, types, first, names, item, depths[number])?;
        out.push(signature)?;
    }
    Ok(out)
}
