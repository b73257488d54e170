//! Where the parser stands: which tokens are left, and what takes the next of them.

ghost use Rattle.std.specs.Prelude.{◌≡◌, ◌∷◌, [], ◌≤◌, ◌<◌, ◌+◌, length, OnOk};
ghost use Rattle.std.specs.Option.{option_copied};
ghost use Rattle.lar_tree.specs.Spelling.{sign_token, word_token, number_token, name_token, flat_signed};
ghost use Rattle.lar_grammar.specs.Looks as looks;
ghost use Rattle.lar_grammar.specs.Symbols as symbol;
ghost use Rattle.lar_syntax.specs.Reads.{Reads, Advances};

use lar_tree::{Keyword, Kind, Name, Sign, SignedNumber, Span, Text, Token};
use std::alloc::{AllocError, Global};

/// Why reading stopped.
#[derive(Clone, Copy, Debug, PartialEq, Eq, Drop)]
pub(crate) enum Stop {
    /// No memory was left.
    Memory,
    /// The next token may not stand there, or a token is wanted at the end.
    Syntax,
}

impl From<AllocError> for Stop {
    ghost use Rattle.lar_syntax.specs.declared.parser.cursor.Stop.TheVariants.{Memory};

    ghost from_gives = { λ _ e. e ≡ Memory };

    fn from(_: AllocError) -> Stop {
        Stop::Memory
    }
}

/// The tokens that are left, and how many of them the outermost expression or type may still have, where one is open.
#[derive(Drop)]
pub(crate) struct Parser<'a> {
    pub(super) alloc: Global,
    pub(super) rest: &'a [Token],
    pub(super) room: Option<u16>,
}

#[tactic(auto, unfolding(lar_grammar::specs::Looks::same_sign))]
fn same_sign(a: Sign, b: Sign) -> bool
    ensures { result ≡ looks.same_sign a b }
{
    a == b
}

#[tactic(auto, unfolding(lar_grammar::specs::Looks::same_word))]
fn same_word(a: Keyword, b: Keyword) -> bool
    ensures { result ≡ looks.same_word a b }
{
    a == b
}

fn is_sign(next: Option<&Kind>, sign: Sign) -> bool
    ensures { result ≡ looks.is_sign sign (option_copied next.entry) }
{
    match next {
        Some(Kind::Sign(other)) => same_sign(*other, sign),
        _ => false,
    }
}

fn is_word(next: Option<&Kind>, word: Keyword) -> bool
    ensures { result ≡ looks.is_word word (option_copied next.entry) }
{
    match next {
        Some(Kind::Word(other)) => same_word(*other, word),
        _ => false,
    }
}

impl<'a> Parser<'a> {
    /// What the next token is, if there is one.
    pub(super) fn peek(&self) -> Option<&'a Kind>
        ensures { option_copied result ≡ looks.look self.now.rest.now }
    {
        match self.rest {
            [token, ..] => Some(&token.kind),
            [] => None,
        }
    }

    /// Takes the next token, if there is room for it.
    pub(super) fn advance(&mut self) -> Result<Span, Stop>
        ensures advances { Advances self.old result self.new }
        ensures shorter { length self.new.rest.now ≤ length self.old.rest.now }
        ensures taken { OnOk result (length self.old.rest.now ≡ length self.new.rest.now + 1) }
    {
        match (self.rest, self.room) {
            ([token, rest @ ..], None) => {
                self.rest = rest;
                Ok(token.span)
            }
            ([token, rest @ ..], Some(room)) if room > 0 => {
                self.rest = rest;
                self.room = Some(room - 1);
                Ok(token.span)
            }
            _ => Err(Stop::Syntax),
        }
    }

    /// Whether the next token is this sign.
    pub(super) fn sees(&self, sign: Sign) -> bool
        ensures { result ≡ looks.is_sign sign (looks.look self.now.rest.now) }
    {
        is_sign(self.peek(), sign)
    }

    /// Whether the next token is this word.
    pub(super) fn sees_word(&self, word: Keyword) -> bool
        ensures { result ≡ looks.is_word word (looks.look self.now.rest.now) }
    {
        is_word(self.peek(), word)
    }

    /// Reads this sign.
    pub(super) fn expect(&mut self, sign: Sign) -> Result<Span, Stop>
        ensures reads { Reads (λ at. sign_token sign at ∷ []) (symbol.one_sign sign ∷ []) self.old result self.new }
        ensures shorter { length self.new.rest.now ≤ length self.old.rest.now }
        ensures taken { OnOk result (length self.new.rest.now < length self.old.rest.now) }
    {
        if !self.sees(sign) {
            return Err(Stop::Syntax);
        }
        let at = self.advance()?;
        Ok(at)
    }

    /// Reads this word.
    pub(super) fn expect_word(&mut self, word: Keyword) -> Result<Span, Stop>
        ensures reads { Reads (λ at. word_token word at ∷ []) (symbol.one_word word ∷ []) self.old result self.new }
        ensures shorter { length self.new.rest.now ≤ length self.old.rest.now }
        ensures taken { OnOk result (length self.new.rest.now < length self.old.rest.now) }
    {
        if !self.sees_word(word) {
            return Err(Stop::Syntax);
        }
        let at = self.advance()?;
        Ok(at)
    }

    /// Reads a name.
    pub(super) fn name(&mut self) -> Result<Name, Stop>
        ensures reads { Reads (λ n. name_token n ∷ []) (symbol.one_name ∷ []) self.old result self.new }
        ensures shorter { length self.new.rest.now ≤ length self.old.rest.now }
        ensures taken { OnOk result (length self.new.rest.now < length self.old.rest.now) }
    {
        match self.peek() {
            Some(Kind::Name(text)) => {
                let text = Text::copied(self.alloc, text.as_str())?;
                let span = self.advance()?;
                Ok(Name { text, span })
            }
            _ => Err(Stop::Syntax),
        }
    }

    /// Reads a number, with the place where it stands.
    pub(super) fn number(&mut self) -> Result<(i64, Span), Stop>
        ensures reads { Reads (λ n. number_token n.0 n.1 ∷ []) (symbol.one_number ∷ []) self.old result self.new }
        ensures shorter { length self.new.rest.now ≤ length self.old.rest.now }
        ensures taken { OnOk result (length self.new.rest.now < length self.old.rest.now) }
    {
        match self.peek() {
            Some(Kind::Number(value)) => {
                let span = self.advance()?;
                Ok((*value, span))
            }
            _ => Err(Stop::Syntax),
        }
    }

    /// Reads a number with the sign before it, if there is one.
    pub(super) fn signed_number(&mut self) -> Result<SignedNumber, Stop>
        ensures reads { Reads flat_signed (symbol.signed_number ∷ []) self.old result self.new }
        ensures shorter { length self.new.rest.now ≤ length self.old.rest.now }
        ensures taken { OnOk result (length self.new.rest.now < length self.old.rest.now) }
    {
        match self.peek() {
            Some(Kind::Sign(Sign::Minus)) => {
                let minus = self.advance()?;
                let (value, span) = self.number()?;
                Ok(SignedNumber {
                    minus: Some(minus),
                    value,
                    span,
                })
            }
            Some(Kind::Number(value)) => {
                let span = self.advance()?;
                Ok(SignedNumber {
                    minus: None,
                    value: *value,
                    span,
                })
            }
            _ => Err(Stop::Syntax),
        }
    }
}
