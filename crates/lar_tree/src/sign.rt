ghost use Rattle.std.specs.Prelude.{◌≡◌};
ghost use Rattle.lar_tree.specs.Sign.{sign_spelling};

/// A token of one or two bytes that are no letters and no digits.
#[derive(Clone, Copy, Debug, PartialEq, Eq)]
pub enum Sign {
    OpenParen,
    CloseParen,
    OpenBrace,
    CloseBrace,
    OpenBracket,
    CloseBracket,
    Comma,
    Semicolon,
    Colon,
    /// Between the names of a path.
    PathSep,
    Dot,
    Assign,
    Equal,
    NotEqual,
    Less,
    AtMost,
    Greater,
    AtLeast,
    Plus,
    Minus,
    Star,
    Slash,
    Percent,
    Not,
    And,
    Or,
    Hash,
    /// Before the result of a function.
    Arrow,
}

impl Sign {
    /// How it is spelled.
    pub fn spelling(self) -> &'static str
        ensures { result.now ≡ sign_spelling self }
    {
        match self {
            Sign::OpenParen => "(",
            Sign::CloseParen => ")",
            Sign::OpenBrace => "{",
            Sign::CloseBrace => "}",
            Sign::OpenBracket => "[",
            Sign::CloseBracket => "]",
            Sign::Comma => ",",
            Sign::Semicolon => ";",
            Sign::Colon => ":",
            Sign::PathSep => "::",
            Sign::Dot => ".",
            Sign::Assign => "=",
            Sign::Equal => "==",
            Sign::NotEqual => "!=",
            Sign::Less => "<",
            Sign::AtMost => "<=",
            Sign::Greater => ">",
            Sign::AtLeast => ">=",
            Sign::Plus => "+",
            Sign::Minus => "-",
            Sign::Star => "*",
            Sign::Slash => "/",
            Sign::Percent => "%",
            Sign::Not => "!",
            Sign::And => "&&",
            Sign::Or => "||",
            Sign::Hash => "#",
            Sign::Arrow => "->",
        }
    }
}
