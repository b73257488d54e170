//! The graph of a program, or a diagnostic.

ghost use Rattle.std.specs.Prelude.{◌≡◌, map, IfOk};
ghost use Rattle.lar_source.specs.Code.{arity};
ghost use Rattle.lar_typed.specs.TreeView.{plain};
ghost use Rattle.lar_types.specs.Checking.{name_of};
ghost use Rattle.build_units.specs.Listed.{refusal_of, GraphOrRefusal};

use lar_bytes::OrMemory;
use lar_source::{Diag, File, Text, Texts};
use lar_typed::TypedTree;
use mono_collect::{RefusedCall, collect};
use mono_items::MonoGraph;
use std::alloc::{AllocError, Global};

// The name of the file with this number.
#[tactic(auto, using(crate::proofs::FileNames::name_there, crate::proofs::FileNames::no_name))]
fn file_name(alloc: Global, files: &[File], number: u16) -> Result<Text, AllocError>
    ensures { IfOk result (λ name. name ≡ name_of (map (λ f. f.name) files.now) number) }
{
    match files.get(usize::from(number)) {
        None => Ok(Text::new()),
        Some(file) => Text::copied(alloc, file.name.as_str()),
    }
}

fn refusal(alloc: Global, files: &[File], call: RefusedCall) -> Result<Diag, AllocError>
    requires { arity call.code ≡ 0 }
    ensures { IfOk result (λ d. d ≡ refusal_of (map (λ f. f.name) files.now) call) }
{
    let name = file_name(alloc, files, call.at.file)?;
    let args = Texts::new(alloc);
    Ok(Diag::new(call.code, name, call.at.line, call.at.col, args))
}

/// The graph of a program of these files, or the diagnostic of its first refused call.
#[tactic(auto, using(crate::proofs::Refusals::no_names))]
pub(crate) fn graph_of(
    alloc: Global,
    tree: &mut TypedTree,
    files: &[File],
) -> Result<MonoGraph, OrMemory<Diag>>
    ensures program { plain tree.new ≡ plain tree.old }
    ensures is { GraphOrRefusal (map (λ f. f.name) files.now) tree.new result }
{
    program_units::laws::answer_is_collected();
    match collect(alloc, tree) {
        Ok(graph) => Ok(graph),
        Err(OrMemory::Refused(call)) => Err(OrMemory::Refused(refusal(alloc, files, call)?)),
        Err(OrMemory::Memory) => Err(OrMemory::Memory),
    }
}
