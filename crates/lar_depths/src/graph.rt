//! The graph of structs: for each one those that its fields mention.
ghost use Rattle.std.specs.Prelude.{◌≡◌, ◌++◌, map, IfOk, OnOk};
ghost use Rattle.lar_tree.specs.PlainLists.{values};
ghost use Rattle.lar_tree.specs.Commas.{commas_map};
ghost use Rattle.lar_tree.specs.ItemView.{field_view};
ghost use Rattle.lar_rules.specs.Structs.{mentions_of_fields};
ghost use Rattle.lar_names.specs.Items.{struct_item};
ghost use Rattle.lar_names.specs.NamesView.{names_view, scope_lists};
ghost use Rattle.lar_names.specs.Numbered as numbered;
ghost use Rattle.lar_written.specs.Sites.{site_view};
ghost use Rattle.lar_depths.specs.Depths.{numbers, next_numbers};
ghost use Rattle.struct_chains.specs.Chains.{lists};

use crate::mentioned::ty_mentioned;
use lar_names::{Names, StructItem};
use lar_tree::{Commas, Field};
use lar_written::{Site, generics_of_struct};
use std::alloc::{AllocError, Global};

fn fields_mentioned(
    fields: &Commas<Field>,
    site: &Site,
    out: &mut Vec<usize>,
) -> Result<(), AllocError>
    ensures { OnOk result (out.new.items ≡ out.old.items ++ numbers (mentions_of_fields (site_view site.now) (values (commas_map field_view fields.now)))) }
{
    ty_mentioned(&fields.first.ty, site, out)?;
    for more in fields.more.as_slice() {
        ty_mentioned(&more.value.ty, site, out)?;
    }
    Ok(())
}

/// The numbers of the structs that the fields of a struct mention.
fn struct_mentioned(
    alloc: Global,
    names: &Names,
    item: &StructItem,
) -> Result<Vec<usize>, AllocError>
    ensures { IfOk result (λ out. out.items ≡ next_numbers (names_view names.now) (struct_item (scope_lists names.now) item.now)) }
{
    let mut out = Vec::new(alloc);
    let generics = generics_of_struct(alloc, item.it)?;
    let site = Site {
        names,
        file: item.file,
        scope: item.scope,
        generics: &generics,
    };
    match &item.it.fields {
        None => Ok(out),
        Some(fields) => {
            fields_mentioned(fields, &site, &mut out)?;
            Ok(out)
        }
    }
}

/// For each struct by number the numbers of those that its fields mention.
pub(crate) fn graph(alloc: Global, names: &Names) -> Result<Vec<Vec<usize>>, AllocError>
    ensures { IfOk result (λ out. lists out.items ≡ map (next_numbers (names_view names.now)) (numbered.structs (names_view names.now))) }
{
    let mut out = Vec::new(alloc);
    for item in names.structs() {
        out.push(struct_mentioned(alloc, names, item)?)?;
    }
    Ok(out)
}
