//! Merging.
ghost use Rattle.std.specs.Prelude.{◌≡◌, ◌<◌, ◌≤◌, ◌^◌, [], length, map, IfOk, OnOk, All, sum};
ghost use Rattle.std.specs.BTreeMap.{btree_map_len};
ghost use Rattle.cgu_merge.specs.Merging.{Merged, merged_units};
ghost use Rattle.cgu_merge.specs.Ranked.{plain, shown, shown_by_name, ranked_larger, ranked_later, ranked_firsts, ranked_order, ranked_merged, IsApart, weight, Stepped, AreInside, finished, named_view, AreNames};

use crate::name::joined_names;
use lar_bytes::Text;
use std::alloc::{AllocError, Global};
use std::collections::BTreeMap;
use text_order::put_in_order;

/// Units by size and least place, with the places of their first units' names.
type BySize = BTreeMap<(u64, usize), Vec<usize>>;

/// Units by least place, with their sizes and places.
type ByName = BTreeMap<usize, (u64, Vec<usize>)>;

/// A unit that is merged from first units.
#[derive(Debug, Drop)]
pub struct MergedUnit {
    /// The names of its first units in byte order, joined with `+`.
    pub name: Text,
    /// The sizes of its first units, added up.
    pub size: u64,
    /// The places of its first units' names, in order.
    pub firsts: Vec<usize>,
}

/// The first units.
fn first_units(alloc: Global, sizes: &[u64]) -> Result<BySize, AllocError>
    ensures { IfOk result (λ units. map shown units.entries ≡ ranked_order ranked_larger [] (ranked_firsts 0 sizes.now)) }
{
    let mut units = BTreeMap::new(alloc);
    for (place, size) in sizes.iter().enumerate() {
        let places = vec![in alloc; place]?;
        units.insert((*size, place), places)?;
    }
    Ok(units)
}

/// Makes the two least units one.
#[tactic(auto, using(crate::proofs::Placing::stepped))]
fn join_two(units: &mut BySize) -> Result<(), AllocError>
    requires two { 2 ≤ btree_map_len units.old }
    requires apart { IsApart (map shown units.old.entries) }
    requires fits { weight (map shown units.old.entries) < 2 ^ 64 }
    ensures { OnOk result (Stepped (map shown units.old.entries) (map shown units.new.entries)) }
{
    let Some((first, mut parts)) = units.pop_first() else {
        return Ok(());
    };
    let Some((second, more)) = units.pop_first() else {
        return Ok(());
    };
    parts.extend_from_slice(&more)?;
    units.insert((first.0 + second.0, first.1.min(second.1)), parts)?;
    Ok(())
}

/// Makes the two least units one while there are more than the limit.
fn join_least(units: &mut BySize, limit: usize) -> Result<(), AllocError>
    requires limit { 1 ≤ limit }
    requires apart { IsApart (map shown units.old.entries) }
    requires fits { weight (map shown units.old.entries) < 2 ^ 64 }
    ensures { OnOk result (map shown units.new.entries ≡ ranked_merged limit (map shown units.old.entries)) }
{
    while units.len() > limit {
        join_two(units)?;
    }
    Ok(())
}

/// The units by their least places.
fn name_order(alloc: Global, units: &mut BySize) -> Result<ByName, AllocError>
    requires { IsApart (map shown units.old.entries) }
    ensures { IfOk result (λ named. map shown_by_name named.entries ≡ ranked_order ranked_later [] (map shown units.old.entries)) }
{
    let mut named = BTreeMap::new(alloc);
    while let Some(((size, least), places)) = units.pop_first() {
        named.insert(least, (size, places))?;
    }
    Ok(named)
}

/// A unit with its name.
fn with_name(
    alloc: Global,
    names: &[Text],
    size: u64,
    mut firsts: Vec<usize>,
) -> Result<MergedUnit, AllocError>
    requires { All (λ p. p < length names.now) firsts.items }
    ensures { IfOk result (λ unit. named_view unit ≡ finished names.now (record { size = size; firsts = firsts.items })) }
{
    put_in_order(&mut firsts);
    let name = joined_names(alloc, names, firsts.as_slice())?;
    Ok(MergedUnit { name, size, firsts })
}

/// The units with their names.
fn with_names(
    alloc: Global,
    names: &[Text],
    units: &mut ByName,
) -> Result<Vec<MergedUnit>, AllocError>
    requires { AreInside (length names.now) (map shown_by_name units.old.entries) }
    ensures { IfOk result (λ us. map named_view us.items ≡ map (finished names.now) (map plain (map shown_by_name units.old.entries))) }
{
    let mut named = Vec::new(alloc);
    while let Some((_, (size, firsts))) = units.pop_first() {
        named.push(with_name(alloc, names, size, firsts)?)?;
    }
    Ok(named)
}

/// The units that are left of first units of these names and sizes, in byte order of their names. The names are in byte order, and
/// each byte of them stands above `+`.
pub fn merge(
    alloc: Global,
    names: &[Text],
    sizes: &[u64],
    limit: usize,
) -> Result<Vec<MergedUnit>, AllocError>
    requires limit { 1 ≤ limit }
    requires names { AreNames names.now }
    requires sizes { length sizes.now ≡ length names.now }
    requires fits { sum sizes.now < 2 ^ 64 }
    ensures { IfOk result (λ us. map named_view us.items ≡ map (finished names.now) (merged_units names.now sizes.now limit)) }
{
    let mut units = first_units(alloc, sizes)?;
    join_least(&mut units, limit)?;
    let mut named = name_order(alloc, &mut units)?;
    with_names(alloc, names, &mut named)
}
