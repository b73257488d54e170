//! Rounds over the edges.
ghost use Rattle.std.specs.Prelude.{◌≡◌, ℕ, suc, ◌<◌, ◌≤◌, List, map, slice_index_or, length, IfOk};
ghost use Rattle.struct_chains.specs.Chains.{longest, lists, all_followers, round};

use std::alloc::{AllocError, Global};

/// One more than the most that a next node has.
fn most(next: &[usize], so_far: &[usize], limit: usize) -> usize
    requires { (node : ℕ) → slice_index_or so_far.now node 0 < limit }
    ensures most { result ≡ longest (λ node. slice_index_or so_far.now node 0) next.now }
    ensures limited { result ≤ limit }
{
    let mut out = 0;
    for node in next {
        let after = so_far.get(*node).copied().unwrap_or(0) + 1;
        if out < after {
            out = after;
        }
    }
    out
}

/// The followers up to one more.
fn one_round(
    alloc: Global,
    graph: &[Vec<usize>],
    so_far: &[usize],
    limit: usize,
) -> Result<Vec<usize>, AllocError>
    requires { (node : ℕ) → slice_index_or so_far.now node 0 < limit }
    ensures { IfOk result (λ next. next.items ≡ round (lists graph.now) so_far.now) }
{
    let mut out = Vec::with_capacity(alloc, graph.len())?;
    for next in graph {
        out.push(most(next, so_far, limit))?;
    }
    Ok(out)
}

fn none(alloc: Global, graph: &[Vec<usize>]) -> Result<Vec<usize>, AllocError>
    ensures { IfOk result (λ out. out.items ≡ all_followers (lists graph.now) 0) }
{
    let mut out = Vec::with_capacity(alloc, graph.len())?;
    for _ in graph {
        out.push(0)?;
    }
    Ok(out)
}

/// How many nodes follow each node in the longest chain, up to the limit. `graph` has the next ones of each node.
pub fn followers(
    alloc: Global,
    graph: &[Vec<usize>],
    limit: usize,
) -> Result<Vec<usize>, AllocError>
    ensures { IfOk result (λ out. out.items ≡ all_followers (lists graph.now) limit) }
{
    let mut so_far = none(alloc, graph)?;
    let mut rounds = 0;
    while rounds < limit {
        let next = one_round(alloc, graph, &so_far, limit)?;
        rounds += 1;
        if next.as_slice() == so_far.as_slice() {
            return Ok(next);
        }
        so_far = next;
    }
    Ok(so_far)
}
