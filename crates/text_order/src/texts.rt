//! The places of texts in byte order, and by what they are.
ghost use Rattle.std.specs.Prelude.{◌≡◌, ℕ, List, [], map, IfOk};
ghost use Rattle.std.specs.BTreeMap.{get_by};
ghost use Rattle.std.specs.Cmp.Lexicographic.{slice_cmp};
ghost use Rattle.std.specs.Ordering.{nat_cmp};
ghost use Rattle.text_order.specs.TextOrder.{entry_view, ordered, text_order, place_in, IsIndex};

use lar_bytes::Text;
use std::alloc::{AllocError, Global};
use std::collections::BTreeMap;

/// The place of each text, by its bytes. Of equal texts it has the last place.
pub fn index_of_texts<'a>(
    alloc: Global,
    texts: &'a [Text],
) -> Result<BTreeMap<&'a str, usize>, AllocError>
    ensures entries { IfOk result (λ index. map entry_view index.entries ≡ ordered 0 [] texts.now) }
    ensures places { IfOk result (λ index. IsIndex texts.now index) }
{
    let mut index = BTreeMap::new(alloc);
    for (place, text) in texts.iter().enumerate() {
        index.insert(text.as_str(), place)?;
    }
    Ok(index)
}

/// The place of a text.
pub fn find_text(index: &BTreeMap<&str, usize>, text: &str) -> Option<usize>
    ensures { result ≡ place_in index.now text.now }
{
    index.get(text).copied()
}

/// The places of the texts in byte order. Of equal texts it has the last place alone.
pub fn order_of_texts(alloc: Global, texts: &[Text]) -> Result<Vec<usize>, AllocError>
    ensures { IfOk result (λ order. order.items ≡ text_order texts.now) }
{
    let index = index_of_texts(alloc, texts)?;
    let mut order = Vec::new(alloc);
    for place in index.values() {
        order.push(*place)?;
    }
    Ok(order)
}
