//! Words that are cleared and moved.

ghost use Rattle.std.specs.Prelude.{◌≡◌, ◌+◌, ◌-◌, ◌≤◌, length, take, drop, replicate, ◌++◌, pos};

/// Sets the words of a part to 0.
pub fn clear(words: &mut [i64], from: usize, to: usize)
    requires { (from ≤ to) × (to ≤ length words.old) }
    ensures { take to words.new ≡ take from words.old ++ replicate (to - from) (pos 0) }
{
    for at in from..to {
        words[at] = 0;
    }
}

/// Moves a part down.
pub fn move_down(words: &mut [i64], from: usize, to: usize, count: usize)
    requires { (to ≤ from) × (from + count ≤ length words.old) }
    ensures { take (to + count) words.new ≡ take to words.old ++ take count (drop from words.old) }
{
    for at in 0..count {
        words[to + at] = words[from + at];
    }
}
