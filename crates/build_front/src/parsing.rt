//! From files to trees.

ghost use Rattle.std.specs.Prelude.{◌≡◌, ◌≤◌, ◌^◌, true, List, length, map, IfOk};
ghost use Rattle.lar_bytes.specs.Answers.{Answers};
ghost use Rattle.lar_tree.specs.ItemView.{tree_view};
ghost use Rattle.lar_names.specs.Sources.{sources_of};
ghost use Rattle.lar_sound.specs.Sources.{AreSources, IsSource};
ghost use Rattle.fault_order.specs.Places.{AreSourcesOrdered};
ghost use Rattle.build_front.specs.Front as spec;
ghost use Rattle.build_front.specs.Parsed.{IsParsed, AreNamed, AreShort};

use lar_bytes::OrMemory;
use lar_source::{Diag, File};
use lar_syntax::{parse, tokens};
use lar_tree::Tree;
use std::alloc::Global;

// The tree of the file with this number.
#[tactic(auto, using(crate::proofs::Decided::tree_of_is, crate::proofs::Kept::kept_if))]
fn parsed(alloc: Global, file: &File, number: u16) -> Result<Tree, OrMemory<Diag>>
    requires { length file.now.bytes ≤ 2 ^ 24 }
    ensures answer { Answers tree_view result (spec.parsed number file.now) }
    ensures kept { IfOk result (λ tree. IsParsed file.now tree) }
{
    let tokens = tokens(alloc, file, number)?;
    parse(alloc, file, tokens.as_slice())
}

/// The trees of all files, or the fault of the first file that has one.
#[tactic(auto, using(crate::proofs::AllParsed::none_yet, crate::proofs::AllParsed::faulty, crate::proofs::AllParsed::all, crate::proofs::AllParsed::names, crate::proofs::AllParsed::keeps))]
pub(crate) fn all_parsed(alloc: Global, files: &[File]) -> Result<Vec<Tree>, OrMemory<Diag>>
    requires few { length files.now ≤ 256 }
    requires short { AreShort files.now }
    ensures answer { Answers (λ trees. sources_of trees.items) result (spec.all_parsed 0 files.now) }
    ensures names { IfOk result (λ trees. map (λ t. t.file) trees.items ≡ map (λ f. f.name) files.now) }
    ensures kept { AreNamed files.now → IfOk result (λ trees. AreSources (sources_of trees.items) × AreSourcesOrdered (sources_of trees.items)) }
{
    let mut trees = Vec::with_capacity(alloc, files.len())?;
    let mut number = 0u16;
    for file in files {
        trees.push(parsed(alloc, file, number)?)?;
        number += 1;
    }
    Ok(trees)
}
