ghost use Rattle.std.specs.Prelude.{◌≡◌, ◌<◌};
ghost use Rattle.lar_source.specs.Code.{arity, row};

/// What a diagnostic says. Its text has parts in capitals, for which its arguments stand.
#[derive(Clone, Copy, Debug, PartialEq, Eq)]
pub enum Code {
    /// A byte at which no token begins; HH is the byte in two lower-case hexadecimal digits.
    UnexpectedByte,
    SyntaxError,
    DefinedTwice,
    UnknownName,
    WrongType,
    WrongCount,
    NoSuchPlace,
    NestedTooDeep,
    NoLawfulMain,
    PastLimit,
    MayEndWithoutValue,
    ArgumentTooLarge,
    TooManyInstances,
    AssertionFalse,
    AssertionTraps,
    TooManySlots,
    TooMuchCode,
    ImageTooLarge,
}

impl Code {
    /// The number that stands after the E.
    pub fn number(self) -> u8
        ensures number { result ≡ (row self).number }
        ensures two_digits { result < 100 }
    {
        match self {
            Code::UnexpectedByte => 1,
            Code::SyntaxError => 2,
            Code::DefinedTwice => 3,
            Code::UnknownName => 4,
            Code::WrongType => 5,
            Code::WrongCount => 6,
            Code::NoSuchPlace => 7,
            Code::NestedTooDeep => 8,
            Code::NoLawfulMain => 9,
            Code::PastLimit => 10,
            Code::MayEndWithoutValue => 11,
            Code::ArgumentTooLarge => 20,
            Code::TooManyInstances => 21,
            Code::AssertionFalse => 30,
            Code::AssertionTraps => 31,
            Code::TooManySlots => 32,
            Code::TooMuchCode => 33,
            Code::ImageTooLarge => 40,
        }
    }

    /// The text, with its parts in capitals.
    pub fn text(self) -> &'static str
        ensures { result.now ≡ (row self).text }
    {
        match self {
            Code::UnexpectedByte => "unexpected byte HH",
            Code::SyntaxError => "syntax error",
            Code::DefinedTwice => "name N defined twice",
            Code::UnknownName => "unknown name PATH",
            Code::WrongType => "wanted T, found U",
            Code::WrongCount => "wanted N arguments, found M",
            Code::NoSuchPlace => "no such field or place",
            Code::NestedTooDeep => "struct N is nested too deep",
            Code::NoLawfulMain => "no lawful main",
            Code::PastLimit => "past the limit N",
            Code::MayEndWithoutValue => "function N may end without a value",
            Code::ArgumentTooLarge => "type argument too large",
            Code::TooManyInstances => "more than 65536 instances",
            Code::AssertionFalse => "static assertion is false in SYMBOL",
            Code::AssertionTraps => "static assertion traps in SYMBOL",
            Code::TooManySlots => "more than 255 slots in SYMBOL",
            Code::TooMuchCode => "more than 16777216 code bytes in SYMBOL",
            Code::ImageTooLarge => "image over 67108864 bytes",
        }
    }

    /// How many parts in capitals its text has, and so how many arguments it takes.
    pub fn arity(self) -> usize
        ensures { result ≡ arity self }
    {
        match self {
            Code::SyntaxError
            | Code::NoSuchPlace
            | Code::NoLawfulMain
            | Code::ArgumentTooLarge
            | Code::TooManyInstances
            | Code::ImageTooLarge => 0,
            Code::WrongType | Code::WrongCount => 2,
            _ => 1,
        }
    }
}
