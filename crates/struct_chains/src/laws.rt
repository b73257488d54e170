//! What the answer says of one node: the law is the contract of a function that does nothing.
ghost use Rattle.std.specs.Prelude.{◌≡◌, ◌≤◌, ℕ, List, slice_index_or};
ghost use Rattle.struct_chains.specs.Chains as spec;

/// The entry of each node is how many follow it, and at most the limit.
pub fn entries()
    ensures entry { (graph : List (List ℕ)) (limit node : ℕ) → slice_index_or (spec.all_followers graph limit) node 0 ≡ spec.followers graph limit node }
    ensures limited { (graph : List (List ℕ)) (limit node : ℕ) → spec.followers graph limit node ≤ limit }
{}
