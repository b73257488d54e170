//! Items put into the units of their homes, in the order of symbols.
ghost use Rattle.std.specs.Prelude.{◌≡◌, ℕ, ◌<◌, ◌++◌, ◌∷◌, [], length, filter, IfOk, OnOk, IfSome, All, nat_eq, slice_index, slice_index_or, slice_get, Some, Vec, if◌then◌else◌};
ghost use Rattle.std.specs.Global.{Global};
ghost use Rattle.reach.specs.Reach.{has};
ghost use Rattle.cgu_partition.specs.Buckets.{AreShared, AreNumbers, number_is, in_unit, AreHomes};

use cgu_merge::MergedUnit;
use std::alloc::{AllocError, Global};

/// Gives this number to each of the places.
fn number_all(places: &[usize], number: usize, numbers: &mut [usize])
    requires { All (λ p. p < length numbers.old) places.now }
    ensures { (r : ℕ) → r < length numbers.old → slice_index numbers.new r ≡ (if has nat_eq r places.now then number else slice_index numbers.old r) }
{
    for place in places {
        numbers[*place] = number;
    }
}

/// For each first unit the number of the unit that it is in.
fn unit_numbers(
    alloc: Global,
    units: &[MergedUnit],
    firsts: usize,
) -> Result<Vec<usize>, AllocError>
    requires inside { All (λ u. All (λ p. p < firsts) u.firsts.items) units.now }
    requires shared { AreShared firsts units.now }
    ensures { IfOk result (λ numbers. AreNumbers firsts units.now numbers.items) }
{
    let mut numbers = vec![in alloc; 0; firsts]?;
    for (number, unit) in units.iter().enumerate() {
        number_all(unit.firsts.as_slice(), number, numbers.as_mut_slice());
    }
    Ok(numbers)
}

/// Puts an item into the list of the unit that its owner is in.
fn put(
    owner: Option<usize>,
    place: usize,
    numbers: &[usize],
    homes: &mut [Vec<usize>],
) -> Result<(), AllocError>
    requires owner { IfSome owner (λ r. r < length numbers.now) }
    requires numbers { All (λ k. k < length homes.old) numbers.now }
    ensures { OnOk result ((k : ℕ) (d : Vec ℕ Global) → k < length homes.old → (slice_index_or homes.new k d).items ≡ (slice_index_or homes.old k d).items ++ (if number_is numbers.now k owner then place ∷ [] else [])) }
{
    match owner {
        None => Ok(()),
        Some(first) => {
            homes[numbers[first]].push(place)?;
            Ok(())
        }
    }
}

/// As many empty lists.
fn empty(alloc: Global, count: usize) -> Result<Vec<Vec<usize>>, AllocError>
    ensures count { IfOk result (λ lists. length lists.items ≡ count) }
    ensures empty { IfOk result (λ lists. All (λ list. list.items ≡ []) lists.items) }
{
    let mut lists = Vec::new(alloc);
    for _ in 0..count {
        lists.push(Vec::new(alloc))?;
    }
    Ok(lists)
}

/// Puts each item with a home into the list of its unit, in order.
fn distribute(
    order: &[usize],
    owners: &[Option<usize>],
    numbers: &[usize],
    homes: &mut [Vec<usize>],
) -> Result<(), AllocError>
    requires order { All (λ p. p < length owners.now) order.now }
    requires owners { (p r : ℕ) → slice_get owners.now p ≡ Some (Some r) → r < length numbers.now }
    requires numbers { All (λ k. k < length homes.old) numbers.now }
    requires empty { All (λ list. list.items ≡ []) homes.old }
    ensures { OnOk result ((k : ℕ) (d : Vec ℕ Global) → k < length homes.new → (slice_index_or homes.new k d).items ≡ filter (in_unit owners.now numbers.now k) order.now) }
{
    for place in order {
        put(owners[*place], *place, numbers, homes)?;
    }
    Ok(())
}

/// Of each unit the items that have their home in it, in order. Each item is looked at once, whatever the number of units.
pub(crate) fn homes_in_order(
    alloc: Global,
    order: &[usize],
    owners: &[Option<usize>],
    units: &[MergedUnit],
    firsts: usize,
) -> Result<Vec<Vec<usize>>, AllocError>
    requires order { All (λ p. p < length owners.now) order.now }
    requires owners { (p r : ℕ) → slice_get owners.now p ≡ Some (Some r) → r < firsts }
    requires inside { All (λ u. All (λ p. p < firsts) u.firsts.items) units.now }
    requires shared { AreShared firsts units.now }
    ensures { IfOk result (λ homes. AreHomes order.now owners.now units.now homes.items) }
{
    let numbers = unit_numbers(alloc, units, firsts)?;
    let mut homes = empty(alloc, units.len())?;
    distribute(order, owners, numbers.as_slice(), homes.as_mut_slice())?;
    Ok(homes)
}
