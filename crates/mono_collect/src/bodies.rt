//! What all instances of a function share: its calls and its size, taken once.
ghost use Rattle.std.specs.Prelude.{◌≡◌, map, IfOk};
ghost use Rattle.mono_collect.specs.Bodies.{body_view, body_of};

use lar_typed::TypedFunction;
use mono_bodies::{PatternCall, body_calls, body_size};
use std::alloc::{AllocError, Global};

/// The calls of a function's body, and how large it is.
#[derive(Debug, Drop)]
pub(crate) struct Body {
    /// The calls as they are written, in reading order.
    pub(crate) calls: Vec<PatternCall>,
    /// The statements and expressions.
    pub(crate) size: u32,
}

fn body_of(alloc: Global, function: &TypedFunction) -> Result<Body, AllocError>
    ensures { IfOk result (λ body. body_view body ≡ body_of function.now) }
{
    let stmts = function.body.as_slice();
    let calls = body_calls(alloc, stmts)?;
    let size = body_size(stmts);
    Ok(Body { calls, size })
}

/// What the instances of each function share.
pub(crate) fn bodies_of(alloc: Global, functions: &[TypedFunction]) -> Result<Vec<Body>, AllocError>
    ensures { IfOk result (λ bodies. map body_view bodies.items ≡ map body_of functions.now) }
{
    let mut bodies = Vec::new(alloc);
    for function in functions {
        bodies.push(body_of(alloc, function)?)?;
    }
    Ok(bodies)
}
