//! From trees to a typed tree.
ghost use Rattle.std.specs.Prelude.{◌≡◌, map, IfOk};
ghost use Rattle.lar_bytes.specs.Answers.{Answers};
ghost use Rattle.lar_typed.specs.TreeView.{plain};
ghost use Rattle.lar_rules.specs.Faults.{first_fault};
ghost use Rattle.lar_sound.specs.Sources.{AreSources};
ghost use Rattle.fault_order.specs.Places.{AreSourcesOrdered};
ghost use Rattle.lar_names.specs.Sources.{sources_of};
ghost use Rattle.lar_types.specs.Answers.{answer_view, unless_told};
ghost use Rattle.lar_types.specs.Checking.{name_of, diagnostic_of, checked};

use crate::ended::{Program, ended};
use crate::functions::checked_functions;
use crate::main_fn::has_main;
use lar_assembled::typed_consts;
use lar_bytes::OrMemory;
use lar_depths::depths;
use lar_names::Names;
use lar_signatures::Signatures;
use lar_source::Diag;
use lar_told::{First, Told};
use lar_tree::{Text, Tree};
use lar_typed::TypedTree;
use std::alloc::{AllocError, Global};
use type_table::Types;

/// The program of these trees with its types, or its first fault.
fn checked_trees(alloc: Global, trees: &[Tree]) -> Result<Result<TypedTree, Told>, AllocError>
    requires sources { AreSources (sources_of trees.now) }
    requires ordered { AreSourcesOrdered (sources_of trees.now) }
    ensures { IfOk result (λ r. answer_view r ≡ unless_told (sources_of trees.now) (first_fault (sources_of trees.now))) }
{
    lar_signatures::laws::depths();
    lar_signatures::laws::grown();
    lar_signatures::laws::in_order();
    let mut first = First::new();
    let names = Names::read(alloc, trees, &mut first)?;
    let depths = depths(alloc, &names)?;
    let mut types = Types::new(alloc);
    let signatures = Signatures::read(alloc, &mut types, &mut first, &names, &depths)?;
    let functions = checked_functions(alloc, &mut types, &mut first, &names, &signatures)?;
    let consts = typed_consts(alloc, &names)?;
    let has_main = has_main(&types, &names, &signatures);
    let program = Program {
        types,
        structs: signatures.decls,
        consts,
        functions,
    };
    Ok(ended(alloc, trees, program, first, has_main))
}

/// The name of the file with this number.
fn file_name(alloc: Global, trees: &[Tree], file: usize) -> Result<Text, AllocError>
    ensures { IfOk result (λ name. name ≡ name_of (map (λ t. t.file) trees.now) file) }
{
    match trees.get(file) {
        None => Ok(Text::new()),
        Some(tree) => Text::copied(alloc, tree.file.as_str()),
    }
}

fn diagnostic(alloc: Global, trees: &[Tree], told: Told) -> Result<Diag, AllocError>
    ensures { IfOk result (λ d. d ≡ diagnostic_of (map (λ t. t.file) trees.now) told) }
{
    let name = file_name(alloc, trees, told.file())?;
    Ok(told.into_diag(name))
}

/// The program with its types where there is no fault in its names and types, else the diagnostic of the first fault:
/// the one with the least file, place and code, and that of a missing `main` only where there is no other. The trees
/// are those of the files in the order of their numbers.
pub fn check(alloc: Global, trees: &[Tree]) -> Result<TypedTree, OrMemory<Diag>>
    requires sources { AreSources (sources_of trees.now) }
    requires ordered { AreSourcesOrdered (sources_of trees.now) }
    ensures { Answers plain result (checked (map (λ t. t.file) trees.now) (sources_of trees.now)) }
{
    match checked_trees(alloc, trees)? {
        Ok(tree) => Ok(tree),
        Err(told) => Err(OrMemory::Refused(diagnostic(alloc, trees, told)?)),
    }
}
