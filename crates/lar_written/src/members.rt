//! Fields of structs and parameters of functions.
ghost use Rattle.std.specs.Prelude.{◌≡◌, map, option_map, IfOk, OnOk};
ghost use Rattle.type_table.specs.Rows.{Keeps};
ghost use Rattle.lar_tree.specs.PlainLists.{values};
ghost use Rattle.lar_tree.specs.Commas.{commas_map};
ghost use Rattle.lar_tree.specs.ItemView.{field_view, output_view};
ghost use Rattle.lar_rules.specs.Fault.{least};
ghost use Rattle.lar_rules.specs.Signatures.{member, outcome_written};
ghost use Rattle.lar_rules.specs.Functions.{output_faults};
ghost use Rattle.lar_rules.specs.Structs.{field_faults};
ghost use Rattle.lar_rules.specs.Written as rules;
ghost use Rattle.lar_written.specs.Members.{MemberStands, MembersStand, fields_in};
ghost use Rattle.lar_written.specs.Names.{names};
ghost use Rattle.lar_written.specs.Standing.{StandsIf};
ghost use Rattle.lar_written.specs.Sites.{site_view};

use crate::ty::unit;
use crate::{Site, written};
use lar_told::First;
use lar_tree::{Commas, Field, Name, Output};
use std::alloc::{AllocError, Global};
use type_table::Types;

/// A field or a parameter: its name, and its type where there is no fault in it.
#[derive(Clone, Copy, Drop)]
pub struct Member<'a> {
    pub name: &'a Name,
    pub of: Option<usize>,
}

fn one_member<'a>(
    alloc: Global,
    types: &mut Types,
    first: &mut First,
    site: &Site,
    field: &'a Field,
) -> Result<Member<'a>, AllocError>
    ensures kept { Keeps types.old types.new }
    ensures of { IfOk result (λ m. MemberStands types.new m (member (site_view site.now) (field_view field.now))) }
    ensures told { OnOk result (first.new ≡ least first.old (rules.written (site_view site.now) (field_view field.now).2).faults) }
{
    let of = written(alloc, types, first, site, &field.ty)?;
    Ok(Member {
        name: &field.name,
        of,
    })
}

fn list_members<'a>(
    alloc: Global,
    types: &mut Types,
    first: &mut First,
    site: &Site,
    list: &'a Commas<Field>,
) -> Result<Vec<Member<'a>>, AllocError>
    ensures kept { Keeps types.old types.new }
    ensures of { IfOk result (λ ms. MembersStand types.new ms.items (map (member (site_view site.now)) (values (commas_map field_view list.now)))) }
    ensures told { OnOk result (first.new ≡ least first.old (field_faults (site_view site.now) (values (commas_map field_view list.now)))) }
{
    let mut out = Vec::new(alloc);
    out.push(one_member(alloc, types, first, site, &list.first)?)?;
    for more in list.more.as_slice() {
        out.push(one_member(alloc, types, first, site, &more.value)?)?;
    }
    Ok(out)
}

/// The fields of a struct or the parameters of a function; the faults in their types are noted.
pub fn all_members<'a>(
    alloc: Global,
    types: &mut Types,
    first: &mut First,
    site: &Site,
    fields: &'a Option<Commas<Field>>,
) -> Result<Vec<Member<'a>>, AllocError>
    ensures kept { Keeps types.old types.new }
    ensures of { IfOk result (λ ms. MembersStand types.new ms.items (map (member (site_view site.now)) (fields_in fields.now))) }
    ensures told { OnOk result (first.new ≡ least first.old (field_faults (site_view site.now) (fields_in fields.now))) }
{
    match fields {
        None => Ok(Vec::new(alloc)),
        Some(list) => list_members(alloc, types, first, site, list),
    }
}

fn list_names<'a>(alloc: Global, list: &'a Commas<Field>) -> Result<Vec<&'a Name>, AllocError>
    ensures { IfOk result (λ ns. names ns.items ≡ map (λ f. f.name) (values list.now)) }
{
    let mut out = Vec::new(alloc);
    out.push(&list.first.name)?;
    for more in list.more.as_slice() {
        out.push(&more.value.name)?;
    }
    Ok(out)
}

/// The names of fields or parameters.
pub fn member_names<'a>(
    alloc: Global,
    fields: &'a Option<Commas<Field>>,
) -> Result<Vec<&'a Name>, AllocError>
    ensures { IfOk result (λ ns. names ns.items ≡ map (λ f. f.0) (fields_in fields.now)) }
{
    match fields {
        None => Ok(Vec::new(alloc)),
        Some(list) => list_names(alloc, list),
    }
}

/// The type of a result, `()` where none is written; the faults in it are noted.
pub fn outcome(
    alloc: Global,
    types: &mut Types,
    first: &mut First,
    site: &Site,
    output: &Option<Output>,
) -> Result<Option<usize>, AllocError>
    ensures kept { Keeps types.old types.new }
    ensures of { IfOk result (λ n. StandsIf types.new n (outcome_written (site_view site.now) (option_map output_view output.now))) }
    ensures told { OnOk result (first.new ≡ least first.old (output_faults (site_view site.now) (option_map output_view output.now))) }
{
    match output {
        None => unit(types),
        Some(output) => written(alloc, types, first, site, &output.ty),
    }
}
