//! The generics that are in scope.
ghost use Rattle.std.specs.Prelude.{◌≡◌, option_map, map, IfOk};
ghost use Rattle.lar_tree.specs.PlainLists.{values};
ghost use Rattle.lar_tree.specs.ItemView.{struct_view, fn_view};
ghost use Rattle.lar_rules.specs.Declared.{texts_of};
ghost use Rattle.lar_rules.specs.Generics.{generic_name, generic_named, struct_generics, function_generics};
ghost use Rattle.lar_rules.specs.Written.{type_generic, number_generic};
ghost use Rattle.lar_written.specs.Sites.{generic_view, generics_view, generic_meant, type_name};

use lar_tree::{Commas, Fn, Generic, Name, Path, Struct, Text};
use std::alloc::{AllocError, Global};
use type_table::Sort;

/// A generic: its name where it is declared, and whether it is a type or a number.
#[derive(Drop)]
pub struct GenericItem<'a> {
    pub name: &'a Name,
    pub sort: Sort,
}

/// The generics that a struct or a function declares. There are at most 16, so they are looked through.
#[derive(Drop)]
pub struct Generics<'a> {
    pub list: Vec<GenericItem<'a>>,
}

impl<'a> Generics<'a> {
    fn find(&self, name: &Text) -> Option<(usize, Sort)>
        ensures { result ≡ option_map (λ p. (p.place, p.sort)) (generic_named (generics_view self.now) name.now) }
    {
        for (place, generic) in self.list.iter().enumerate() {
            if generic.name.text == *name {
                return Some((place, generic.sort));
            }
        }
        None
    }

    fn meant(&self, path: &Path) -> Option<(usize, Sort)>
        ensures { result ≡ generic_meant (generics_view self.now) (texts_of path.now) }
    {
        if path.len() == 1 {
            self.find(&path.first.text)
        } else {
            None
        }
    }

    /// The place of the type generic that a path of one name means.
    pub fn type_named(&self, path: &Path) -> Option<usize>
        ensures { result ≡ type_generic (generics_view self.now) (texts_of path.now) }
    {
        match self.meant(path) {
            Some((place, Sort::Ty)) => Some(place),
            _ => None,
        }
    }

    /// The place of the const generic that a path of one name means.
    pub fn number_named(&self, path: &Path) -> Option<usize>
        ensures { result ≡ number_generic (generics_view self.now) (texts_of path.now) }
    {
        match self.meant(path) {
            Some((place, Sort::Number)) => Some(place),
            _ => None,
        }
    }
}

fn type_generics<'a>(alloc: Global, names: &'a Commas<Name>) -> Result<Generics<'a>, AllocError>
    ensures { IfOk result (λ g. generics_view g ≡ map type_name (values names.now)) }
{
    let mut list = Vec::new(alloc);
    list.push(GenericItem {
        name: &names.first,
        sort: Sort::Ty,
    })?;
    for more in names.more.as_slice() {
        list.push(GenericItem {
            name: &more.value,
            sort: Sort::Ty,
        })?;
    }
    Ok(Generics { list })
}

fn generic_item<'a>(generic: &'a Generic) -> GenericItem<'a>
    ensures { generic_view result ≡ generic_name generic.now }
{
    match generic {
        Generic::Ty(name) => GenericItem {
            name,
            sort: Sort::Ty,
        },
        Generic::Const(it) => GenericItem {
            name: &it.name,
            sort: Sort::Number,
        },
    }
}

fn listed_generics<'a>(
    alloc: Global,
    generics: &'a Commas<Generic>,
) -> Result<Generics<'a>, AllocError>
    ensures { IfOk result (λ g. generics_view g ≡ map generic_name (values generics.now)) }
{
    let mut list = Vec::new(alloc);
    list.push(generic_item(&generics.first))?;
    for more in generics.more.as_slice() {
        list.push(generic_item(&more.value))?;
    }
    Ok(Generics { list })
}

/// The generics of a struct, each a type.
pub fn generics_of_struct<'a>(alloc: Global, it: &'a Struct) -> Result<Generics<'a>, AllocError>
    ensures { IfOk result (λ g. generics_view g ≡ struct_generics (struct_view it.now).generics) }
{
    match &it.generics {
        Some(generics) => type_generics(alloc, &generics.list),
        None => Ok(Generics {
            list: Vec::new(alloc),
        }),
    }
}

/// The generics of a function.
pub fn generics_of_function<'a>(alloc: Global, it: &'a Fn) -> Result<Generics<'a>, AllocError>
    ensures { IfOk result (λ g. generics_view g ≡ function_generics (fn_view it.now).generics) }
{
    match &it.generics {
        Some(generics) => listed_generics(alloc, &generics.list),
        None => Ok(Generics {
            list: Vec::new(alloc),
        }),
    }
}
