//! A name in a type, before and after its generics are read.
ghost use Rattle.std.specs.Prelude.{◌≡◌, List, map, Some, IfOk, OnOk};
ghost use Rattle.type_table.specs.Rows.{Keeps};
ghost use Rattle.lar_rules.specs.Fault.{least};
ghost use Rattle.lar_rules.specs.Declared as declared;
ghost use Rattle.lar_rules.specs.Signatures.{struct_numbered};
ghost use Rattle.lar_rules.specs.Written as rules;
ghost use Rattle.lar_written.specs.declared.site.TypeName.TheVariants as code;
ghost use Rattle.lar_written.specs.Given.{marks, given_view, early, late, name_of, IsBegun, IsCounted};
ghost use Rattle.lar_written.specs.Sites.{site_view};
ghost use Rattle.lar_written.specs.Standing.{AllInside, StandsIf};

use crate::fault::note_unknown;
use crate::fitted::{fit_begun, fit_ended};
use crate::number::struct_of;
use crate::{Given, Site, TypeName};
use lar_told::First;
use lar_tree::Path;
use std::alloc::{AllocError, Global};
use type_table::{Row, Sort, Types};

/// What is known of a name before its generics are read: what it means, and what a struct's generics stand for.
#[derive(Drop)]
pub(crate) struct Begun {
    pub name: TypeName,
    pub sorts: Vec<Sort>,
}

fn name_sorts(alloc: Global, site: &Site, name: TypeName) -> Result<Vec<Sort>, AllocError>
    ensures { IfOk result (λ sorts. (x : declared.Struct) → name ≡ code.Struct x.number → struct_numbered (site_view site.now).all x.number ≡ Some x → sorts.items ≡ rules.struct_sorts x) }
{
    match name {
        TypeName::Struct(number) => site.struct_sorts(alloc, number),
        TypeName::Generic(_) => Ok(Vec::new(alloc)),
        TypeName::Unknown => Ok(Vec::new(alloc)),
    }
}

fn note_begun(
    alloc: Global,
    site: &Site,
    first: &mut First,
    path: &Path,
    name: TypeName,
    wanted: usize,
    found: usize,
) -> Result<(), AllocError>
    ensures { OnOk result ((t : rules.TypeName) → IsCounted t name wanted → first.new ≡ least first.old (early (site_view site.now) path.now t found)) }
{
    match name {
        TypeName::Unknown => note_unknown(alloc, site, first, path),
        TypeName::Generic(_) => fit_begun(alloc, site, first, path, 0, found),
        TypeName::Struct(_) => fit_begun(alloc, site, first, path, wanted, found),
    }
}

/// Finds a name that has so many generics, and notes what is told before the faults of these.
pub(crate) fn name_begun(
    alloc: Global,
    site: &Site,
    first: &mut First,
    path: &Path,
    found: usize,
) -> Result<Begun, AllocError>
    ensures begun { IfOk result (λ b. IsBegun (rules.type_named (site_view site.now) path.now) b) }
    ensures told { OnOk result (first.new ≡ least first.old (early (site_view site.now) path.now (rules.type_named (site_view site.now) path.now) found)) }
{
    let name = site.type_named(path);
    let sorts = name_sorts(alloc, site, name)?;
    note_begun(
        alloc,
        site,
        first,
        path,
        name,
        sorts.as_slice().len(),
        found,
    )?;
    Ok(Begun { name, sorts })
}

/// The type, once the generics' own faults are noted.
pub(crate) fn name_ended(
    alloc: Global,
    site: &Site,
    types: &mut Types,
    first: &mut First,
    begun: &Begun,
    given: &[Given],
) -> Result<Option<usize>, AllocError>
    requires { AllInside types.old (map (λ g. g.of) given.now) }
    ensures kept { Keeps types.old types.new }
    ensures of { IfOk result (λ n. (t : rules.TypeName) → IsBegun t begun.now → StandsIf types.new n (name_of t (map (given_view types.old) given.now))) }
    ensures told { OnOk result ((t : rules.TypeName) → IsBegun t begun.now → first.new ≡ least first.old (late (site_view site.now) t (map marks given.now))) }
{
    match begun.name {
        TypeName::Unknown => Ok(None),
        TypeName::Generic(place) => {
            if given.is_empty() {
                Ok(Some(types.intern(Row::Param(place))?))
            } else {
                Ok(None)
            }
        }
        TypeName::Struct(number) => {
            let fitted = fit_ended(alloc, site, types, first, begun.sorts.as_slice(), given)?;
            struct_of(types, number, fitted.of)
        }
    }
}
