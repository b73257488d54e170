//! The front, joined.

ghost use Rattle.std.specs.Prelude.{◌≤◌, length};
ghost use Rattle.lar_bytes.specs.Answers.{Answers};
ghost use Rattle.lar_typed.specs.TreeView.{plain};
ghost use Rattle.build_front.specs.Front.{fronted};
ghost use Rattle.build_front.specs.Parsed.{AreNamed};

use crate::parsing::all_parsed;
use crate::sum::{passing, past_limit};
use lar_bytes::OrMemory;
use lar_source::{Diag, File};
use lar_typed::TypedTree;
use lar_types::check;
use std::alloc::Global;

/// The program of these files with its types, or the first diagnostic. The files' names are names of the language, each followed
/// by `.larch`.
#[tactic(auto, using(crate::proofs::InParts::past, crate::proofs::InParts::short, crate::proofs::InParts::faulty, crate::proofs::InParts::joined))]
pub fn front(alloc: Global, files: &[File]) -> Result<TypedTree, OrMemory<Diag>>
    requires few { length files.now ≤ 256 }
    requires named { AreNamed files.now }
    ensures { Answers plain result (fronted files.now) }
{
    if let Some(file) = passing(files) {
        return Err(OrMemory::Refused(past_limit(alloc, file)?));
    }
    let trees = all_parsed(alloc, files)?;
    check(alloc, trees.as_slice())
}
