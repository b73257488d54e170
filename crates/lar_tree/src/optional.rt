ghost use Rattle.std.specs.Prelude.{◌≡◌, IfOk};

use sqlite_items::Boxed;
use std::alloc::{AllocError, Global};

/// A value in a box of its own, if there is one.
pub(crate) fn boxed<T: Drop>(
    alloc: Global,
    value: Option<T>,
) -> Result<Option<Boxed<T>>, AllocError>
    ensures { IfOk result (λ b. b ≡ value) }
{
    match value {
        Some(value) => Ok(Some(Boxed::new(alloc, value)?)),
        None => Ok(None),
    }
}
