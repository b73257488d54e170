ghost use Rattle.std.specs.Prelude.{◌≡◌};
ghost use Rattle.lar_tree.specs.Keyword.{keyword_of, keyword_spelling};

/// A word that is no name.
#[derive(Clone, Copy, Debug, PartialEq, Eq)]
pub enum Keyword {
    Mod,
    Struct,
    Const,
    Fn,
    Let,
    If,
    Else,
    While,
    Return,
    Print,
    StaticAssert,
    New,
    True,
    False,
    I64,
    Bool,
}

impl Keyword {
    const ALL: [Keyword; 16] = [
        Keyword::Mod,
        Keyword::Struct,
        Keyword::Const,
        Keyword::Fn,
        Keyword::Let,
        Keyword::If,
        Keyword::Else,
        Keyword::While,
        Keyword::Return,
        Keyword::Print,
        Keyword::StaticAssert,
        Keyword::New,
        Keyword::True,
        Keyword::False,
        Keyword::I64,
        Keyword::Bool,
    ];

    /// The keyword that a word spells. A word that spells none is a name.
    pub fn of(word: &[u8]) -> Option<Keyword>
        ensures { result ≡ keyword_of word.now }
    {
        let all = Keyword::ALL;
        all.iter()
            .copied()
            .find(|k| word == k.spelling().as_bytes())
    }

    /// How it is spelled.
    pub fn spelling(self) -> &'static str
        ensures { result.now ≡ keyword_spelling self }
    {
        match self {
            Keyword::Mod => "mod",
            Keyword::Struct => "struct",
            Keyword::Const => "const",
            Keyword::Fn => "fn",
            Keyword::Let => "let",
            Keyword::If => "if",
            Keyword::Else => "else",
            Keyword::While => "while",
            Keyword::Return => "return",
            Keyword::Print => "print",
            Keyword::StaticAssert => "static_assert",
            Keyword::New => "new",
            Keyword::True => "true",
            Keyword::False => "false",
            Keyword::I64 => "i64",
            Keyword::Bool => "bool",
        }
    }
}
