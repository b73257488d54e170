//! The lines of units.

ghost use Rattle.std.specs.Prelude.{◌≤◌, map};
ghost use Rattle.lar_bytes.specs.Answers.{Answers};
ghost use Rattle.lar_typed.specs.TreeView.{plain};
ghost use Rattle.build_units.specs.Listed as spec;

use crate::graph::graph_of;
use cgu_partition::partition;
use graph_laws::read_numbers;
use lar_bytes::OrMemory;
use lar_source::{Diag, File};
use lar_typed::TypedTree;
use std::alloc::Global;
use units_text::units_text;

/// The lines of the codegen units of a program of these files, at most `limit` units; or the diagnostic of its first call that is
/// refused. Types that instances come to are added to the table of the tree.
pub fn listed(
    alloc: Global,
    tree: &mut TypedTree,
    files: &[File],
    limit: u16,
) -> Result<Vec<u8>, OrMemory<Diag>>
    requires { 1 ≤ limit }
    ensures { Answers (λ text. text.items) result (spec.listed (map (λ f. f.name) files.now) limit (plain tree.old)) }
{
    graph_laws::laws::placing();
    program_units::laws::units_are();
    let graph = graph_of(alloc, tree, files)?;
    read_numbers(tree.types());
    let plans = partition(alloc, tree, &graph, limit)?;
    Ok(units_text(alloc, &plans)?)
}
