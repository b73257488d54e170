//! What declarations have in lists: the names and the sorts of generics, the structs as types name them.
ghost use Rattle.std.specs.Prelude.{◌≡◌, ℕ, length, map, IfOk};
ghost use Rattle.type_table.specs.Rows.{Keeps, Stands};
ghost use Rattle.lar_tree.specs.ItemView.{struct_view};
ghost use Rattle.lar_typed.specs.SameType.{list_of};
ghost use Rattle.lar_rules.specs.Checked.{all_known};
ghost use Rattle.lar_rules.specs.Generics.{struct_generics};
ghost use Rattle.lar_names.specs.Items.{struct_item};
ghost use Rattle.lar_names.specs.NamesView.{names_view, scope_lists};
ghost use Rattle.lar_names.specs.Numbered.{struct_at, structs};
ghost use Rattle.lar_written.specs.Names as written;
ghost use Rattle.lar_written.specs.Sites.{generics_view};
ghost use Rattle.lar_written.specs.Standing.{number_type, AllInside};
ghost use Rattle.lar_signatures.specs.Depths.{AreDepths, IsDepth};
ghost use Rattle.lar_signatures.specs.EachStands.{EachStands};
ghost use Rattle.lar_signatures.specs.Signatures.{StructStands, DeclStands, or_no_types};

use crate::StructSignature;
use lar_names::{Names, StructItem};
use lar_tree::{Name, Struct, Text};
use lar_written::{Generics, Member, listed};
use sqlite_items::Items;
use std::alloc::{AllocError, Global};
use type_table::{Row, Sort, StructDecl, Types};

/// The names of generics.
pub(crate) fn generic_names<'a>(
    alloc: Global,
    generics: &Generics<'a>,
) -> Result<Vec<&'a Name>, AllocError>
    ensures { IfOk result (λ ns. written.names ns.items ≡ map (λ g. g.name) (generics_view generics.now)) }
{
    let mut names = Vec::new(alloc);
    for generic in &generics.list {
        names.push(generic.name)?;
    }
    Ok(names)
}

/// What generics stand for.
pub(crate) fn sorts_of(alloc: Global, generics: &Generics) -> Result<Vec<Sort>, AllocError>
    ensures { IfOk result (λ sorts. sorts.items ≡ map (λ g. g.sort) (generics_view generics.now)) }
{
    let mut sorts = Vec::new(alloc);
    for generic in &generics.list {
        sorts.push(generic.sort)?;
    }
    Ok(sorts)
}

/// The types of fields, each where it is known.
fn member_types(alloc: Global, members: &[Member]) -> Result<Vec<Option<usize>>, AllocError>
    ensures { IfOk result (λ types. types.items ≡ map (λ m. m.of) members.now) }
{
    let mut types = Vec::new(alloc);
    for member in members {
        types.push(member.of)?;
    }
    Ok(types)
}

/// The list of the types of fields, and the empty list where one of them is not known.
fn field_types(alloc: Global, types: &mut Types, fields: &[Member]) -> Result<usize, AllocError>
    requires { AllInside types.old (map (λ m. m.of) fields.now) }
    ensures kept { Keeps types.old types.new }
    ensures of { IfOk result (λ n. Stands types.new n (list_of (or_no_types (all_known (map (λ m. number_type types.old m.of) fields.now))))) }
{
    let known = member_types(alloc, fields)?;
    match listed(types, &known)? {
        Some(list) => Ok(list),
        None => types.intern(Row::End),
    }
}

/// How many generics a struct has.
fn generic_count(it: &Struct) -> usize
    ensures { result ≡ length (struct_generics (struct_view it.now).generics) }
{
    match &it.generics {
        Some(generics) => generics.list.len(),
        None => 0,
    }
}

/// A struct as types name it, which so many others follow.
fn declared_struct(
    alloc: Global,
    types: &mut Types,
    names: &Names,
    item: &StructItem,
    depth: usize,
    signature: &StructSignature,
) -> Result<StructDecl, AllocError>
    requires { AllInside types.old (map (λ m. m.of) signature.now.fields.items) }
    ensures kept { Keeps types.old types.new }
    ensures of { IfOk result (λ d. (n : ℕ) → IsDepth (names_view names.now) (struct_at n (struct_item (scope_lists names.now) item.now)) depth
        → StructStands types.old (names_view names.now) signature.now (struct_at n (struct_item (scope_lists names.now) item.now))
        → DeclStands types.new (names_view names.now) d (struct_at n (struct_item (scope_lists names.now) item.now))) }
{
    let fields = field_types(alloc, types, &signature.fields)?;
    let module = names.module_path(alloc, item.scope)?;
    let name = Text::copied(alloc, item.it.name.text.as_str())?;
    Ok(StructDecl {
        module,
        name,
        generics: generic_count(item.it),
        fields,
        depth,
    })
}

/// The structs as types name them. Where the type of a field is not known, the struct has no field.
pub(crate) fn declared_structs(
    alloc: Global,
    types: &mut Types,
    names: &Names,
    depths: &[usize],
    signatures: &[StructSignature],
) -> Result<Items<StructDecl>, AllocError>
    requires depths { AreDepths (names_view names.now) depths.now }
    requires stand { EachStands (λ n s p. StructStands types.old (names_view names.now) s (struct_at n p)) 0 signatures.now (structs (names_view names.now)) }
    ensures kept { Keeps types.old types.new }
    ensures of { IfOk result (λ out. EachStands (λ n d p. DeclStands types.new (names_view names.now) d (struct_at n p)) 0 out (structs (names_view names.now))) }
{
    let mut out = Items::new(alloc);
    for (number, item) in names.structs().iter().enumerate() {
        let signature = &signatures[number];
        out.push(declared_struct(alloc, types, names, item, depths[number], signature)?)?;
    }
    Ok(out)
}
