//! What items say of their functions.
ghost use Rattle.std.specs.Prelude.{◌≡◌, ◌<◌, map, length, IfOk, OnOk, All};
ghost use Rattle.std.specs.List.{AllByRecursion};
ghost use Rattle.lar_typed.specs.TreeView.{function_view, plain, Contents};
ghost use Rattle.mono_graph.specs.Graphs.{SaysOf, IsItem};
ghost use Rattle.mono_collect.specs.Bodies.{body_view, body_of};

use crate::bodies::Body;
use crate::roots::is_root;
use lar_bytes::Text;
use lar_typed::{TypedFunction, TypedTree};
use mono_items::{Instance, MonoItem};
use std::alloc::{AllocError, Global};

/// The item of an instance, whose function and body are given.
fn item_of(
    alloc: Global,
    function: &TypedFunction,
    body: &Body,
    instance: Instance,
) -> Result<MonoItem, AllocError>
    requires body { body_view body.now ≡ body_of function.now }
    requires small { body.now.size < 4294967295 }
    ensures instance { IfOk result (λ x. x.instance ≡ instance) }
    ensures says { IfOk result (λ x. SaysOf (function_view function.now) x) }
{
    Ok(MonoItem {
        instance,
        place: Text::copied(alloc, function.module.as_str())?,
        generic: !function.generics.is_empty(),
        inlined: function.inlined,
        root: is_root(function),
        size: body.size + 1,
    })
}

/// The items of instances, in order.
pub(crate) fn items_of(
    alloc: Global,
    tree: &TypedTree,
    bodies: &[Body],
    instances: &[Instance],
) -> Result<Vec<MonoItem>, AllocError>
    requires bodies { map body_view bodies.now ≡ map body_of tree.now.functions }
    requires functions { AllByRecursion (λ x. x.function < length tree.now.functions) instances.now }
    ensures instances { IfOk result (λ items. map (λ x. x.instance) items.items ≡ instances.now) }
    ensures items { IfOk result (λ items. AllByRecursion (IsItem (plain tree.now)) items.items) }
{
    let functions = tree.functions();
    let mut items = Vec::new(alloc);
    for instance in instances {
        let function = &functions[instance.function];
        let body = &bodies[instance.function];
        items.push(item_of(alloc, function, body, *instance)?)?;
    }
    Ok(items)
}
