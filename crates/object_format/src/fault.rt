//! Why bytes are no file of a format, or no valid image.

ghost use Rattle.std.specs.Prelude.{◌≡◌};
ghost use Rattle.object_format.specs.Words.{word_of};

use thiserror::Error;

/// The rule that is broken.
#[derive(Clone, Copy, Debug, PartialEq, Eq, Error)]
pub enum What {
    /// The first bytes are not the format's.
    #[error("magic")]
    Magic,
    /// The format has another version.
    #[error("version")]
    Version,
    /// A field is cut by the end.
    #[error("short")]
    Short,
    /// A symbol is empty, has a byte that none may have, or stands twice.
    #[error("symbol")]
    Symbol,
    /// A function is neither external nor internal.
    #[error("kind")]
    Kind,
    /// The entry is no function, or not one that a run can begin with.
    #[error("entry")]
    Entry,
    /// No instruction stands here.
    #[error("code")]
    Code,
    /// The number of a call is no function.
    #[error("call")]
    Call,
    /// The digest is not that of the bytes before it.
    #[error("digest")]
    Digest,
    /// Bytes stand behind the last field.
    #[error("trailing")]
    Trailing,
    /// The file has more bytes than one may have.
    #[error("long")]
    Long,
    /// A function has fewer slots than params.
    #[error("slots")]
    Slots,
    /// A jump leads to no instruction of its function.
    #[error("jump")]
    Jump,
    /// A slot is not one of the function's.
    #[error("slot")]
    Slot,
    /// An instruction meets another number of operand words than it may.
    #[error("height")]
    Height,
    /// The code runs out at its end.
    #[error("end")]
    End,
}

impl What {
    /// The word for it in a line to the user.
    pub fn word(self) -> &'static str
        ensures { result.now ≡ word_of self }
    {
        match self {
            What::Magic => "magic",
            What::Version => "version",
            What::Short => "short",
            What::Symbol => "symbol",
            What::Kind => "kind",
            What::Entry => "entry",
            What::Code => "code",
            What::Call => "call",
            What::Digest => "digest",
            What::Trailing => "trailing",
            What::Long => "long",
            What::Slots => "slots",
            What::Jump => "jump",
            What::Slot => "slot",
            What::Height => "height",
            What::End => "end",
        }
    }
}

/// The first field or instruction of a file that breaks a rule.
#[derive(Clone, Copy, Debug, PartialEq, Eq, Error)]
#[error("bad file at {at}: {what}")]
pub struct BadFile {
    /// How many bytes stand before it in the file.
    pub at: u64,
    pub what: What,
}
