//! The units of a graph.
ghost use Rattle.std.specs.Prelude.{◌≡◌, ◌<◌, ◌≤◌, length, map, IfOk, All};
ghost use Rattle.lar_typed.specs.TreeView.{Contents};
ghost use Rattle.mono_items.specs.Units.{symbols_of, homeless, IsGraph, AreUnits};

use crate::homes::{first_names, has_home, home_sizes, owners_of};
use crate::plans::plans_of;
use cgu_merge::merge;
use lar_bytes::Text;
use lar_typed::TypedTree;
use mono_items::{MonoGraph, MonoItem, UnitPlan, symbol};
use std::alloc::{AllocError, Global};
use text_order::order_of_texts;

/// The symbols of items.
fn symbols_of(alloc: Global, typed: &TypedTree, items: &[MonoItem]) -> Result<Vec<Text>, AllocError>
    requires functions { All (λ x. x.instance.function < length typed.now.functions) items.now }
    requires arguments { All (λ x. x.instance.arguments < length typed.now.rows) items.now }
    ensures { IfOk result (λ symbols. symbols.items ≡ symbols_of typed.now items.now) }
{
    let mut symbols = Vec::new(alloc);
    for item in items {
        symbols.push(symbol(alloc, typed, item.instance)?)?;
    }
    Ok(symbols)
}

/// Of each item whether it has no home.
fn homeless_of(alloc: Global, items: &[MonoItem]) -> Result<Vec<bool>, AllocError>
    ensures { IfOk result (λ free. free.items ≡ homeless items.now) }
{
    let mut free = Vec::new(alloc);
    for item in items {
        free.push(!has_home(item))?;
    }
    Ok(free)
}

/// The codegen units of a graph, at most `limit` of them, in byte order of their names.
pub fn partition(
    alloc: Global,
    typed: &TypedTree,
    graph: &MonoGraph,
    limit: u16,
) -> Result<Vec<UnitPlan>, AllocError>
    requires limit { 1 ≤ limit }
    requires graph { IsGraph typed.now graph.now }
    ensures { IfOk result (λ plans. AreUnits typed.now graph.now limit plans.items) }
{
    let items = graph.items.as_slice();
    let symbols = symbols_of(alloc, typed, items)?;
    let order = order_of_texts(alloc, symbols.as_slice())?;
    let names = first_names(alloc, items)?;
    let owners = owners_of(alloc, items, names.as_slice())?;
    let sizes = home_sizes(alloc, items, names.as_slice(), owners.as_slice())?;
    let units = merge(
        alloc,
        names.as_slice(),
        sizes.as_slice(),
        usize::from(limit),
    )?;
    let homeless = homeless_of(alloc, items)?;
    plans_of(
        alloc,
        order.as_slice(),
        owners.as_slice(),
        homeless.as_slice(),
        graph.callees.as_slice(),
        units.as_slice(),
        names.len(),
    )
}
