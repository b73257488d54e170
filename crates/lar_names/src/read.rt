//! All names of the trees, and the faults that are found on the way.
ghost use Rattle.std.specs.Prelude.{◌≡◌, ◌++◌, [], length, map, OnOk, IfOk};
ghost use Rattle.lar_rules.specs.Declared.{declared};
ghost use Rattle.lar_rules.specs.Fault.{least};
ghost use Rattle.lar_rules.specs.Faults.{past_limit, max_functions};
ghost use Rattle.lar_rules.specs.Twice.{repeated_items};
ghost use Rattle.lar_names.specs.Declarations.{declared_view};
ghost use Rattle.lar_names.specs.Indexed.{AreWithin, IsIndex};
ghost use Rattle.lar_names.specs.NamesView.{names_view};
ghost use Rattle.lar_names.specs.Sources.{sources_of};

use crate::index::Index;
use crate::walk::walked;
use crate::{Declaration, Names, Scopes};
use lar_told::First;
use lar_tree::Tree;
use std::alloc::{AllocError, Global};

// All that is kept of the declarations. Names that are defined twice in one module are noted.
fn indexed<'a>(
    alloc: Global,
    scopes: &Scopes,
    declared: &[Declaration<'a>],
    first: &mut First,
) -> Result<Index<'a>, AllocError>
    requires { AreWithin (length scopes.now) declared.now }
    ensures index { IfOk result (λ i. IsIndex scopes.now declared.now i.structs.items i.consts.items i.functions.items i.known.maps.items) }
    ensures told { OnOk result (first.new ≡ least first.old (repeated_items [] (map (declared_view scopes.now) declared.now))) }
{
    let mut index = Index::new(alloc, scopes)?;
    for declaration in declared {
        index.add(alloc, scopes, declaration, first)?;
    }
    Ok(index)
}

impl<'a> Names<'a> {
    /// All names of the trees. Names that are defined twice in one module are noted, and the first function past the limit.
    pub fn read(
        alloc: Global,
        trees: &'a [Tree],
        first: &mut First,
    ) -> Result<Names<'a>, AllocError>
        ensures names { IfOk result (λ n. names_view n ≡ declared (sources_of trees.now)) }
        ensures told { OnOk result (first.new ≡ least first.old (repeated_items [] (declared (sources_of trees.now)) ++ past_limit (declared (sources_of trees.now)) max_functions)) }
    {
        let found = walked(alloc, trees)?;
        let index = indexed(alloc, &found.scopes, &found.declared, first)?;
        index.past_limit(alloc, first)?;
        Ok(Names {
            scopes: found.scopes,
            declared: found.declared,
            structs: index.structs,
            consts: index.consts,
            functions: index.functions,
            known: index.known,
        })
    }
}
