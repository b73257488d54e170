use crate::{Keyword, Sign, Span, Text};

/// What a token is.
#[derive(Debug, PartialEq, Drop)]
pub enum Kind {
    /// A name, with its spelling.
    Name(Text),
    /// A decimal number. A sign before it is a token of its own.
    Number(i64),
    Word(Keyword),
    Sign(Sign),
}

/// A token and where it begins.
#[derive(Debug, PartialEq, Drop)]
pub struct Token {
    pub kind: Kind,
    pub span: Span,
}
