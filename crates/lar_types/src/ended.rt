//! The answer, once all faults are noted and all items are made.
ghost use Rattle.std.specs.Prelude.{◌≡◌};
ghost use Rattle.lar_rules.specs.Declared.{declared};
ghost use Rattle.lar_rules.specs.Faults.{first_fault, is_lawful_main, main_meant};
ghost use Rattle.lar_sound.specs.Sources.{AreSources};
ghost use Rattle.fault_order.specs.Places.{AreSourcesOrdered};
ghost use Rattle.lar_names.specs.Sources.{sources_of};
ghost use Rattle.lar_assembled.specs.Programs.{ItemsStand, noted};
ghost use Rattle.lar_types.specs.Answers.{or_main, answer_view, unless_told};

use lar_told::{First, Told};
use lar_tree::{Code, Span, Texts, Tree};
use lar_typed::{TypedConst, TypedFunction, TypedTree};
use sqlite_items::Items;
use std::alloc::Global;
use type_table::{StructDecl, Types};

/// The fault that is told: the least one, and that of `main` only where there is no other.
fn told_fault(alloc: Global, first: First, has_main: bool) -> Option<Told>
    ensures { result ≡ or_main first has_main }
{
    match first.into_fault() {
        Some(told) => Some(told),
        None => {
            if has_main {
                return None;
            }
            let at = Span {
                file: 0,
                line: 1,
                col: 1,
            };
            Some(Told::new(0, at, Code::NoLawfulMain, Texts::new(alloc)))
        }
    }
}

/// The parts of a program.
#[derive(Drop)]
pub(crate) struct Program {
    pub types: Types,
    pub structs: Items<StructDecl>,
    pub consts: Items<TypedConst>,
    pub functions: Items<TypedFunction>,
}

/// The program with its types, or the fault that is told. `first` is the least of all faults but that of `main`.
pub(crate) fn ended(
    alloc: Global,
    trees: &[Tree],
    program: Program,
    first: First,
    has_main: bool,
) -> Result<TypedTree, Told>
    requires sources { AreSources (sources_of trees.now) }
    requires ordered { AreSourcesOrdered (sources_of trees.now) }
    requires noted { first ≡ noted (declared (sources_of trees.now)) }
    requires main { has_main ≡ is_lawful_main (declared (sources_of trees.now)) (main_meant (declared (sources_of trees.now))) }
    requires stand { ItemsStand program.types (declared (sources_of trees.now)) program.structs program.consts program.functions }
    ensures { answer_view result ≡ unless_told (sources_of trees.now) (first_fault (sources_of trees.now)) }
{
    lar_assembled::laws::first_faults();
    lar_assembled::laws::programs();
    let _sources = trees;
    match told_fault(alloc, first, has_main) {
        Some(told) => Err(told),
        None => Ok(TypedTree::new(
            program.types,
            program.structs,
            program.consts,
            program.functions,
        )),
    }
}
