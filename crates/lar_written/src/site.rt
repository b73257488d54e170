//! Where a type is written, and what a path means there.
ghost use Rattle.std.specs.Prelude.{◌≡◌, Some, map, IfOk};
ghost use Rattle.lar_tree.specs.ItemView.{struct_view};
ghost use Rattle.lar_tree.specs.TypeView.{type_view};
ghost use Rattle.lar_rules.specs.Declared as declared;
ghost use Rattle.lar_rules.specs.Generics.{struct_generics};
ghost use Rattle.lar_rules.specs.Signatures.{struct_numbered};
ghost use Rattle.lar_rules.specs.Written.{type_named, const_generic, struct_sorts};
ghost use Rattle.lar_written.specs.Sites.{site_view, meaning, all_types};

use crate::Generics;
use lar_names::Names;
use lar_tree::{Path, Struct, Ty};
use std::alloc::{AllocError, Global};
use type_table::Sort;

/// What a path means in a type: a generic by its place, a struct by its number, or nothing.
#[derive(Clone, Copy, Debug, PartialEq, Eq)]
pub enum TypeName {
    Generic(usize),
    Struct(usize),
    Unknown,
}

/// Where a type is written: the declarations, the file, the modules, and the generics in scope.
#[derive(Clone, Copy, Drop)]
pub struct Site<'a> {
    pub names: &'a Names<'a>,
    pub file: usize,
    pub scope: usize,
    pub generics: &'a Generics<'a>,
}

fn type_sorts(alloc: Global, count: usize) -> Result<Vec<Sort>, AllocError>
    ensures { IfOk result (λ sorts. sorts.items ≡ all_types count) }
{
    let mut sorts = Vec::new(alloc);
    for _ in 0..count {
        sorts.push(Sort::Ty)?;
    }
    Ok(sorts)
}

/// What the generics of a struct stand for: types, as many as it declares.
pub fn item_sorts(alloc: Global, it: &Struct) -> Result<Vec<Sort>, AllocError>
    ensures { IfOk result (λ sorts. sorts.items ≡ map (λ g. g.sort) (struct_generics (struct_view it.now).generics)) }
{
    match &it.generics {
        Some(generics) => type_sorts(alloc, generics.list.len()),
        None => Ok(Vec::new(alloc)),
    }
}

impl<'a> Site<'a> {
    /// What a path means in a type.
    pub fn type_named(&self, path: &Path) -> TypeName
        ensures { result ≡ meaning (type_named (site_view self.now) path.now) }
    {
        match self.generics.type_named(path) {
            Some(place) => TypeName::Generic(place),
            None => match self.names.struct_meant(self.scope, path) {
                Some(number) => TypeName::Struct(number),
                None => TypeName::Unknown,
            },
        }
    }

    /// The const generic that a type's name means where it is given as one generic.
    pub fn const_generic(&self, ty: &Ty) -> Option<usize>
        ensures { result ≡ const_generic (site_view self.now) (type_view ty.now) }
    {
        match ty {
            Ty::Named(path, None) => self.generics.number_named(path),
            Ty::Named(path, Some(_)) => self.generics.number_named(path),
            Ty::Int(_) => None,
            Ty::Bool(_) => None,
            Ty::Unit(_, _) => None,
            Ty::Tuple(_) => None,
        }
    }

    /// What the generics of a struct stand for.
    pub fn struct_sorts(&self, alloc: Global, number: usize) -> Result<Vec<Sort>, AllocError>
        ensures { IfOk result (λ sorts. (x : declared.Struct) → struct_numbered (site_view self.now).all number ≡ Some x → sorts.items ≡ struct_sorts x) }
    {
        match self.names.structs().get(number) {
            Some(item) => item_sorts(alloc, item.it),
            None => Ok(Vec::new(alloc)),
        }
    }
}
