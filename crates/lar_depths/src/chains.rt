//! How many structs follow each struct.
ghost use Rattle.std.specs.Prelude.{◌≡◌, IfOk};
ghost use Rattle.lar_names.specs.NamesView.{names_view};
ghost use Rattle.lar_depths.specs.Depths as spec;

use crate::graph::graph;
use lar_names::Names;
use std::alloc::{AllocError, Global};
use struct_chains::followers;

/// How many structs follow each struct in the longest chain, up to 64, by the struct's number.
pub fn depths(alloc: Global, names: &Names) -> Result<Vec<usize>, AllocError>
    ensures { IfOk result (λ out. out.items ≡ spec.depths (names_view names.now)) }
{
    let graph = graph(alloc, names)?;
    followers(alloc, &graph, 64)
}
