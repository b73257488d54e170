//! Calls are read one after another, and their targets are found.
ghost use Rattle.std.specs.Prelude.{◌≡◌, ◌<◌, ◌≤◌, map, length, slice_get, Some, OnOk};
ghost use Rattle.lar_bytes.specs.declared.memory.OrMemory.TheVariants.{Refused};
ghost use Rattle.type_table.specs.Rows.{Keeps};
ghost use Rattle.type_sizes.specs.Sizes.{AreSizes};
ghost use Rattle.lar_typed.specs.TreeView.{contents, plain, IsTypedTree};
ghost use Rattle.mono_graph.specs.Instances.{roots};
ghost use Rattle.mono_collect.specs.Arguments.{call_by};
ghost use Rattle.mono_collect.specs.Bodies.{body_view, body_of};
ghost use Rattle.mono_collect.specs.States.{views, AreInside, CallEnds, ReadBefore, ArePatterns, RowEnds, WalkEnds};

use crate::arguments::argument_list;
use crate::bodies::Body;
use crate::found::Found;
use lar_bytes::OrMemory;
use lar_source::{Code, Span};
use lar_typed::TypedTree;
use mono_bodies::PatternCall;
use mono_graph::RefusedCall;
use mono_items::Instance;
use std::alloc::Global;
use type_sizes::Size;

fn refused(code: Code, at: Span) -> OrMemory<RefusedCall>
    ensures { result ≡ Refused (record { code = code; at = at }) }
{
    OrMemory::Refused(RefusedCall { code, at })
}

/// Reads a call of an instance with these arguments: the place of its target, which is added where it is new.
fn take_call(
    tree: &mut TypedTree,
    sizes: &mut Vec<Size>,
    found: &mut Found,
    call: PatternCall,
    arguments: usize,
    limit: usize,
) -> Result<usize, OrMemory<RefusedCall>>
    requires callee { call.callee < length tree.old.functions }
    requires generics { call.generics < length tree.old.rows }
    requires arguments { arguments < length tree.old.rows }
    requires count { length sizes.old.items ≤ length tree.old.rows }
    requires sizes { AreSizes tree.old.rows sizes.old.items }
    requires few { length found.old ≤ limit }
    requires inside { AreInside tree.old found.old }
    ensures kept { Keeps tree.old.rows tree.new.rows }
    ensures rest { tree.new ≡ contents tree.new.rows tree.old.structs tree.old.consts tree.old.functions }
    ensures program { plain tree.new ≡ plain tree.old }
    ensures count { OnOk result (length sizes.new.items ≤ length tree.new.rows) }
    ensures sizes { OnOk result (AreSizes tree.new.rows sizes.new.items) }
    ensures ends { CallEnds tree.old tree.new limit found.old found.new (call_by tree.old.rows arguments call) result }
{
    let Some(list) = argument_list(tree, sizes, call.generics, arguments)? else {
        return Err(refused(Code::ArgumentTooLarge, call.at));
    };
    let instance = Instance {
        function: call.callee,
        arguments: list,
    };
    match found.find(instance) {
        Some(place) => return Ok(place),
        None => {}
    }
    let place = found.len();
    if place == limit {
        return Err(refused(Code::TooManyInstances, call.at));
    }
    found.push(instance)?;
    Ok(place)
}

/// Reads the calls of the instance at a place: the places of their targets, in reading order.
fn take_calls(
    alloc: Global,
    tree: &mut TypedTree,
    sizes: &mut Vec<Size>,
    found: &mut Found,
    calls: &[PatternCall],
    member: usize,
    instance: Instance,
    limit: usize,
) -> Result<Vec<usize>, OrMemory<RefusedCall>>
    requires member { slice_get found.old member ≡ Some instance }
    requires patterns { ArePatterns tree.old instance calls.now }
    requires count { length sizes.old.items ≤ length tree.old.rows }
    requires sizes { AreSizes tree.old.rows sizes.old.items }
    requires before { ReadBefore tree.old limit member found.old }
    ensures kept { Keeps tree.old.rows tree.new.rows }
    ensures rest { tree.new ≡ contents tree.new.rows tree.old.structs tree.old.consts tree.old.functions }
    ensures program { plain tree.new ≡ plain tree.old }
    ensures count { OnOk result (length sizes.new.items ≤ length tree.new.rows) }
    ensures sizes { OnOk result (AreSizes tree.new.rows sizes.new.items) }
    ensures ends { RowEnds tree.old tree.new limit member instance found.old found.new result }
{
    let mut row = Vec::new(alloc);
    for call in calls {
        let place = take_call(tree, sizes, found, *call, instance.arguments, limit)?;
        row.push(place)?;
    }
    Ok(row)
}

/// Reads the calls of all that is found, until nothing new is: of each instance the places of its calls' targets.
pub(crate) fn walk(
    alloc: Global,
    tree: &mut TypedTree,
    bodies: &[Body],
    found: &mut Found,
    limit: usize,
) -> Result<Vec<Vec<usize>>, OrMemory<RefusedCall>>
    requires typed { IsTypedTree tree.old }
    requires bodies { map body_view bodies.now ≡ map body_of tree.old.functions }
    requires few { length found.old ≤ limit }
    requires inside { AreInside tree.old found.old }
    requires roots { views tree.old.rows found.old ≡ roots (plain tree.old) }
    ensures kept { Keeps tree.old.rows tree.new.rows }
    ensures rest { tree.new ≡ contents tree.new.rows tree.old.structs tree.old.consts tree.old.functions }
    ensures program { plain tree.new ≡ plain tree.old }
    ensures ends { WalkEnds tree.new limit found.new result }
{
    let mut callees = Vec::new(alloc);
    let mut sizes = Vec::new(alloc);
    let mut member = 0;
    while member < found.len() {
        let instance = found.at(member);
        let calls = bodies[instance.function].calls.as_slice();
        let row = take_calls(
            alloc, tree, &mut sizes, found, calls, member, instance, limit,
        )?;
        callees.push(row)?;
        member += 1;
    }
    Ok(callees)
}
