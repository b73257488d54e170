//! Numbers in order.
ghost use Rattle.std.specs.Prelude.{◌≡◌};
ghost use Rattle.text_order.specs.Sorted.{sorted};

/// Puts numbers in order.
pub fn put_in_order(numbers: &mut Vec<usize>)
    ensures { numbers.new.items ≡ sorted numbers.old.items }
{
    numbers.sort_unstable();
}
