//! All signatures, by number.
ghost use Rattle.std.specs.Prelude.{◌≡◌, ◌++◌, IfOk, OnOk};
ghost use Rattle.type_table.specs.Rows.{Keeps};
ghost use Rattle.lar_rules.specs.Fault.{least};
ghost use Rattle.lar_rules.specs.Faults.{none_yet};
ghost use Rattle.lar_names.specs.NamesView.{names_view};
ghost use Rattle.fault_order.specs.Order.{struct_part, head_part, parts_from};
ghost use Rattle.lar_signatures.specs.Depths.{AreDepths};
ghost use Rattle.lar_signatures.specs.Signatures.{SignaturesStand};

use crate::declared::declared_structs;
use crate::function::read_functions;
use crate::structure::read_structs;
use crate::{FunctionSignature, StructSignature};
use lar_names::Names;
use lar_told::First;
use sqlite_items::Items;
use std::alloc::{AllocError, Global};
use type_table::{StructDecl, Types};

/// What is known of all structs and functions by number, and the structs as types name them.
#[derive(Drop)]
pub struct Signatures<'a> {
    pub structs: Vec<StructSignature<'a>>,
    pub functions: Vec<FunctionSignature<'a>>,
    /// By it types are printed. It is the list of a typed tree where each field's type is known; a struct of which one is not known
    /// has no field in it.
    pub decls: Items<StructDecl>,
}

impl<'a> Signatures<'a> {
    /// Reads all structs, and then all functions. `depths` says how many structs follow each struct in the longest chain, by number.
    /// Each fault is noted: in a struct's names, its fields' types and its nesting; in a function's names, parameters and result.
    pub fn read(
        alloc: Global,
        types: &mut Types,
        first: &mut First,
        names: &Names<'a>,
        depths: &[usize],
    ) -> Result<Signatures<'a>, AllocError>
        requires { AreDepths (names_view names.now) depths.now }
        ensures kept { Keeps types.old types.new }
        ensures stand { IfOk result (λ s. SignaturesStand types.new (names_view names.now) s) }
        ensures told { OnOk result (first.new ≡ least first.old (parts_from struct_part (names_view names.now) none_yet (names_view names.now) ++ parts_from head_part (names_view names.now) none_yet (names_view names.now))) }
    {
        let structs = read_structs(alloc, types, first, names, depths)?;
        let functions = read_functions(alloc, types, first, names)?;
        let decls = declared_structs(alloc, types, names, depths, &structs)?;
        Ok(Signatures {
            structs,
            functions,
            decls,
        })
    }
}
