//! The graph of a program.
ghost use Rattle.std.specs.Prelude.{◌≡◌, ◌≤◌, ◌∷◌, [], length, IfOk, OnOk};
ghost use Rattle.type_table.specs.Rows.{Keeps};
ghost use Rattle.lar_typed.specs.TreeView.{contents, plain};
ghost use Rattle.mono_graph.specs.Graphs.{IsAnswer};
ghost use Rattle.mono_graph.specs.Instances.{roots};
ghost use Rattle.mono_collect.specs.States.{views, AreInside};

use crate::bodies::bodies_of;
use crate::found::Found;
use crate::items::items_of;
use crate::roots::root_places;
use crate::walk::walk;
use lar_bytes::OrMemory;
use lar_typed::TypedTree;
use mono_graph::RefusedCall;
use mono_items::{Instance, MonoGraph};
use std::alloc::{AllocError, Global};
use type_table::Row;

/// The greatest number of instances.
const MAX_INSTANCES: usize = 65_536;

/// The roots as instances.
fn found_roots(alloc: Global, tree: &mut TypedTree) -> Result<Found, AllocError>
    ensures kept { Keeps tree.old.rows tree.new.rows }
    ensures rest { tree.new ≡ contents tree.new.rows tree.old.structs tree.old.consts tree.old.functions }
    ensures program { plain tree.new ≡ plain tree.old }
    ensures few { IfOk result (λ found. length found ≤ 65536) }
    ensures inside { IfOk result (λ found. AreInside tree.new found) }
    ensures roots { IfOk result (λ found. views tree.new.rows found ≡ roots (plain tree.new)) }
{
    let none = tree.intern(Row::End)?;
    let places = root_places(alloc, tree.functions())?;
    let mut found = Found::new(alloc);
    for place in &places {
        let root = Instance {
            function: *place,
            arguments: none,
        };
        found.push(root)?;
    }
    Ok(found)
}

/// The graph of a program: the instances that its roots reach, in the order in which they are found, with the targets of their
/// calls. It is refused where a call has an argument that is nested more than 16 deep or has more than 255 parts, or names a new
/// instance where 65,536 are found: with the first such call, and at one call with the first of these two reasons. Types that
/// arguments come to are added to the table of the tree.
pub fn collect(alloc: Global, tree: &mut TypedTree) -> Result<MonoGraph, OrMemory<RefusedCall>>
    ensures kept { Keeps tree.old.rows tree.new.rows }
    ensures rest { tree.new ≡ contents tree.new.rows tree.old.structs tree.old.consts tree.old.functions }
    ensures program { plain tree.new ≡ plain tree.old }
    ensures is { IsAnswer tree.new result }
{
    let bodies = bodies_of(alloc, tree.functions())?;
    let mut found = found_roots(alloc, tree)?;
    let callees = walk(alloc, tree, bodies.as_slice(), &mut found, MAX_INSTANCES)?;
    let items = items_of(alloc, tree, bodies.as_slice(), found.as_slice())?;
    Ok(MonoGraph { items, callees })
}
