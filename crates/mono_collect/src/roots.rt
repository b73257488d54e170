//! The roots of a program.
ghost use Rattle.std.specs.Prelude.{◌≡◌, ◌<◌, map, filter, length, slice_get, IfOk, All};
ghost use Rattle.lar_typed.specs.TreeView.{function_view};
ghost use Rattle.lar_typed.specs.Paths.{item_path};
ghost use Rattle.mono_graph.specs.Instances.{is_root, root_if, paths_of, root_places};

use lar_bytes::Text;
use lar_typed::TypedFunction;
use std::alloc::{AllocError, Global};
use text_order::order_of_texts;

/// Whether a function is a root.
pub(crate) fn is_root(function: &TypedFunction) -> bool
    ensures { result ≡ is_root (function_view function.now) }
{
    if function.module.as_str() == "main" && function.name.as_str() == "main" {
        return true;
    }
    function.exported && function.generics.is_empty()
}

/// The path of a function, which is its symbol where it has no generics.
fn path_of(alloc: Global, function: &TypedFunction) -> Result<Text, AllocError>
    ensures { IfOk result (λ path. path ≡ item_path function.now.module function.now.name) }
{
    let mut path = function.module.as_str().to_string(alloc)?;
    path.push_str("::")?;
    path.push_str(function.name.as_str())?;
    Text::from_string(alloc, path)
}

fn paths_of(alloc: Global, functions: &[TypedFunction]) -> Result<Vec<Text>, AllocError>
    ensures { IfOk result (λ paths. paths.items ≡ paths_of (map function_view functions.now)) }
{
    let mut paths = Vec::new(alloc);
    for function in functions {
        paths.push(path_of(alloc, function)?)?;
    }
    Ok(paths)
}

/// Whether the function at a place is a root.
fn is_root_at(functions: &[TypedFunction], place: usize) -> bool
    requires { place < length functions.now }
    ensures { result ≡ root_if (slice_get (map function_view functions.now) place) }
{
    is_root(&functions[place])
}

/// The places of those that are roots, in the order that is given.
fn roots_among(
    alloc: Global,
    functions: &[TypedFunction],
    order: &[usize],
) -> Result<Vec<usize>, AllocError>
    requires { All (λ k. k < length functions.now) order.now }
    ensures { IfOk result (λ roots. roots.items ≡ filter (λ k. root_if (slice_get (map function_view functions.now) k)) order.now) }
{
    let mut roots = Vec::new(alloc);
    for place in order {
        if is_root_at(functions, *place) {
            roots.push(*place)?;
        }
    }
    Ok(roots)
}

/// The places of the functions that are roots, in byte order of symbols.
pub(crate) fn root_places(
    alloc: Global,
    functions: &[TypedFunction],
) -> Result<Vec<usize>, AllocError>
    ensures { IfOk result (λ roots. roots.items ≡ root_places (map function_view functions.now)) }
{
    let paths = paths_of(alloc, functions)?;
    let order = order_of_texts(alloc, paths.as_slice())?;
    roots_among(alloc, functions, order.as_slice())
}
