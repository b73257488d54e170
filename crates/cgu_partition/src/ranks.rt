//! Items in the order of symbols: the rank of each, and what is found put in order.
ghost use Rattle.std.specs.Prelude.{◌≡◌, ℕ, ◌<◌, ◌&&◌, true, length, map, filter, IfOk, All, nat_eq, slice_index};
ghost use Rattle.std.specs.List.{IsDistinct};
ghost use Rattle.reach.specs.Reach.{has};
ghost use Rattle.cgu_copies.specs.Copies.{is_free};
ghost use Rattle.cgu_partition.specs.Buckets.{AreRanks};

use std::alloc::{AllocError, Global};
use text_order::put_in_order;

/// The rank of each item: its place in the order.
pub(crate) fn ranks_of(
    alloc: Global,
    order: &[usize],
    count: usize,
) -> Result<Vec<usize>, AllocError>
    requires inside { All (λ p. p < count) order.now }
    requires once { IsDistinct nat_eq order.now }
    ensures { IfOk result (λ ranks. AreRanks order.now count ranks.items) }
{
    let mut ranks = vec![in alloc; 0; count]?;
    for (rank, place) in order.iter().enumerate() {
        ranks[*place] = rank;
    }
    Ok(ranks)
}

/// Whether an item has no home.
fn is_free(place: usize, homeless: &[bool]) -> bool
    requires { place < length homeless.now }
    ensures { result ≡ is_free homeless.now place }
{
    homeless[place]
}

/// The ranks of the found items that have no home.
fn free_ranks(
    alloc: Global,
    ranks: &[usize],
    homeless: &[bool],
    found: &[usize],
) -> Result<Vec<usize>, AllocError>
    requires found { All (λ p. p < length homeless.now) found.now }
    requires ranks { length ranks.now ≡ length homeless.now }
    ensures { IfOk result (λ picked. picked.items ≡ map (slice_index ranks.now) (filter (is_free homeless.now) found.now)) }
{
    let mut picked = Vec::new(alloc);
    for place in found {
        if is_free(*place, homeless) {
            picked.push(ranks[*place])?;
        }
    }
    Ok(picked)
}

/// The items of these ranks.
fn places_of(alloc: Global, order: &[usize], ranks: &[usize]) -> Result<Vec<usize>, AllocError>
    requires { All (λ r. r < length order.now) ranks.now }
    ensures { IfOk result (λ places. places.items ≡ map (slice_index order.now) ranks.now) }
{
    let mut places = Vec::new(alloc);
    for rank in ranks {
        places.push(order[*rank])?;
    }
    Ok(places)
}

/// The found items that have no home, in order. They are put in order by their ranks, so this costs what is found.
pub(crate) fn copies_in_order(
    alloc: Global,
    order: &[usize],
    ranks: &[usize],
    homeless: &[bool],
    found: &[usize],
) -> Result<Vec<usize>, AllocError>
    requires inside { All (λ p. p < length homeless.now) order.now }
    requires all { (p : ℕ) → p < length homeless.now → has nat_eq p order.now ≡ true }
    requires ranks { AreRanks order.now (length homeless.now) ranks.now }
    requires found { All (λ p. p < length homeless.now) found.now }
    requires once { IsDistinct nat_eq found.now }
    ensures { IfOk result (λ copied. copied.items ≡ filter (λ p. is_free homeless.now p && has nat_eq p found.now) order.now) }
{
    let mut picked = free_ranks(alloc, ranks, homeless, found)?;
    put_in_order(&mut picked);
    places_of(alloc, order, picked.as_slice())
}
