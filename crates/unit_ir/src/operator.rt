//! The operators on words, and what they compute. A word is a signed number of 64 bits; a test gives 1 or 0.

ghost use Rattle.std.specs.Prelude.{◌≡◌};
ghost use Rattle.unit_ir.specs.Operators as meaning;

/// An operator on one word.
#[derive(Clone, Copy, Debug, PartialEq, Eq)]
pub enum Unary {
    Neg,
    Not,
}

/// An operator on two words.
#[derive(Clone, Copy, Debug, PartialEq, Eq)]
pub enum Binary {
    Add,
    Sub,
    Mul,
    Div,
    Rem,
    Equal,
    NotEqual,
    Less,
    AtMost,
    Greater,
    AtLeast,
}

// The word of a test.
fn truth(holds: bool) -> i64
    ensures { result ≡ meaning.truth holds }
{
    if holds { 1 } else { 0 }
}

impl Unary {
    /// What it gives for a word. The negation of the least word is that word.
    pub fn apply(self, a: i64) -> i64
        ensures { result ≡ meaning.unary_of self a }
    {
        match self {
            Unary::Neg => a.wrapping_neg(),
            Unary::Not => truth(a == 0),
        }
    }
}

impl Binary {
    /// What it gives for two words, or none where it traps: a division by 0, and that of the least word by -1.
    pub fn apply(self, a: i64, b: i64) -> Option<i64>
        ensures { result ≡ meaning.binary_of self a b }
    {
        match self {
            Binary::Add => Some(a.wrapping_add(b)),
            Binary::Sub => Some(a.wrapping_sub(b)),
            Binary::Mul => Some(a.wrapping_mul(b)),
            Binary::Div => a.checked_div(b),
            Binary::Rem => a.checked_rem(b),
            Binary::Equal => Some(truth(a == b)),
            Binary::NotEqual => Some(truth(a != b)),
            Binary::Less => Some(truth(a < b)),
            Binary::AtMost => Some(truth(a <= b)),
            Binary::Greater => Some(truth(a > b)),
            Binary::AtLeast => Some(truth(a >= b)),
        }
    }

    /// Whether it may trap, which a division does for some words.
    pub fn may_trap(self) -> bool
        ensures { result ≡ meaning.may_trap self }
    {
        matches!(self, Binary::Div | Binary::Rem)
    }
}
