//! Lists whose members are taken from the first on.

ghost use Rattle.std.specs.Prelude.{◌≡◌, IfOk, reverse};

use sqlite_items::Items;
use std::alloc::{AllocError, Global};

/// The members turned round, so that the first is the last, which `pop` takes.
pub fn last_first<T: Drop>(alloc: Global, list: Items<T>) -> Result<Vec<T>, AllocError>
    ensures { IfOk result (λ r. r.items ≡ reverse list) }
{
    let mut list = list;
    let mut turned = Vec::with_capacity(alloc, list.len())?;
    while let Some(last) = list.pop() {
        turned.push(last)?;
    }
    Ok(turned)
}
