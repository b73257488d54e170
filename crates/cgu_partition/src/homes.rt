//! The homes of items: their names in byte order, which item has which, and how large each is.
ghost use Rattle.std.specs.Prelude.{◌≡◌, ◌<◌, ◌≤◌, ◌+◌, ◌^◌, length, map, IfOk, IfSome, All, sum};
ghost use Rattle.text_order.specs.TextOrder.{text_at, AreApart};
ghost use Rattle.mono_items.specs.Homes.{has_home, home_of, homes, first_names, home_size};
ghost use Rattle.cgu_partition.specs.Owners.{owner_in, AreOwners, with_size};

use lar_bytes::Text;
use mono_items::MonoItem;
use std::alloc::{AllocError, Global};
use std::collections::BTreeMap;
use text_order::{find_text, index_of_texts, order_of_texts};

/// Whether an item has a home.
pub(crate) fn has_home(item: &MonoItem) -> bool
    ensures { result ≡ has_home item.now }
{
    item.root || !item.inlined
}

/// The name of an item's home.
fn home_of(alloc: Global, item: &MonoItem) -> Result<Text, AllocError>
    ensures { IfOk result (λ name. name ≡ home_of item.now) }
{
    if !item.generic {
        return Text::copied(alloc, item.place.as_str());
    }
    let mut name = item.place.as_str().to_string(alloc)?;
    name.push_str(".volatile")?;
    Text::from_string(alloc, name)
}

/// The names of the homes of the items that have one, in the order of the items.
fn homes_of(alloc: Global, items: &[MonoItem]) -> Result<Vec<Text>, AllocError>
    ensures { IfOk result (λ names. names.items ≡ homes items.now) }
{
    let mut names = Vec::new(alloc);
    for item in items {
        if has_home(item) {
            names.push(home_of(alloc, item)?)?;
        }
    }
    Ok(names)
}

/// The texts at the places.
fn texts_at(alloc: Global, texts: &[Text], places: &[usize]) -> Result<Vec<Text>, AllocError>
    requires { All (λ p. p < length texts.now) places.now }
    ensures { IfOk result (λ picked. picked.items ≡ map (text_at texts.now) places.now) }
{
    let mut picked = Vec::new(alloc);
    for place in places {
        picked.push(Text::copied(alloc, texts[*place].as_str())?)?;
    }
    Ok(picked)
}

/// The names of the homes in byte order, each once.
pub(crate) fn first_names(alloc: Global, items: &[MonoItem]) -> Result<Vec<Text>, AllocError>
    ensures { IfOk result (λ names. names.items ≡ first_names items.now) }
{
    let homes = homes_of(alloc, items)?;
    let order = order_of_texts(alloc, homes.as_slice())?;
    texts_at(alloc, homes.as_slice(), order.as_slice())
}

/// The place that the index has of an item's home, where the item has one.
fn owner_of(
    alloc: Global,
    item: &MonoItem,
    index: &BTreeMap<&str, usize>,
) -> Result<Option<usize>, AllocError>
    ensures { IfOk result (λ owner. owner ≡ owner_in index.now item.now) }
{
    if !has_home(item) {
        return Ok(None);
    }
    let name = home_of(alloc, item)?;
    Ok(find_text(index, name.as_str()))
}

/// The place of each item's home among the names, where the item has one.
pub(crate) fn owners_of(
    alloc: Global,
    items: &[MonoItem],
    names: &[Text],
) -> Result<Vec<Option<usize>>, AllocError>
    requires { names.now ≡ first_names items.now }
    ensures { IfOk result (λ owners. AreOwners names.now items.now owners.items) }
{
    let index = index_of_texts(alloc, names)?;
    let mut owners = Vec::new(alloc);
    for item in items {
        owners.push(owner_of(alloc, item, &index)?)?;
    }
    Ok(owners)
}

/// Adds the size of an item to that of its home.
fn add_size(sizes: &mut Vec<u64>, owner: Option<usize>, size: u64)
    requires inside { IfSome owner (λ r. r < length sizes.old.items) }
    requires fits { sum sizes.old.items + size < 2 ^ 64 }
    ensures { sizes.new.items ≡ with_size owner size sizes.old.items }
{
    match owner {
        None => {}
        Some(place) => sizes[place] += size,
    }
}

/// The sizes of the items of each home, added up.
pub(crate) fn home_sizes(
    alloc: Global,
    items: &[MonoItem],
    names: &[Text],
    owners: &[Option<usize>],
) -> Result<Vec<u64>, AllocError>
    requires few { length items.now ≤ 65536 }
    requires apart { AreApart names.now }
    requires owners { AreOwners names.now items.now owners.now }
    ensures sizes { IfOk result (λ sizes. sizes.items ≡ map (home_size items.now) names.now) }
    ensures fits { IfOk result (λ sizes. sum sizes.items < 2 ^ 64) }
{
    let mut sizes = vec![in alloc; 0; names.len()]?;
    for (place, item) in items.iter().enumerate() {
        add_size(&mut sizes, owners[place], u64::from(item.size));
    }
    Ok(sizes)
}
