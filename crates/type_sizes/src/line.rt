//! ASCII text that grows at its end.
ghost use Rattle.std.specs.Prelude.{◌≡◌, ◌++◌, IfOk, OnOk, length, min, ◌+◌, ◌-◌, ◌^◌};
ghost use Rattle.std.specs.Str.{IsAscii};
ghost use Rattle.std.specs.Fmt.{signed_decimal};

use itoa::Buffer;
use lar_bytes::Text;
use std::alloc::{AllocError, Global};
use std::marker::Model;

/// A text that is made. Contracts see its bytes.
#[derive(Drop)]
pub(crate) struct Line {
    text: String,
}

impl Model for Line {
    ghost use Rattle.std.specs.Prelude.{List, ℕ, string_bytes};
    ghost use Rattle.std.specs.Str.{IsAscii};

    ghost Value = { List ℕ };

    ghost view = { λ l. string_bytes l.text };

    ghost invariant = { λ l. IsAscii (string_bytes l.text) };
}

impl Line {
    ghost use Rattle.std.specs.Prelude.{[]};

    /// No text, with room for this many bytes.
    pub(crate) fn with_room(alloc: Global, room: usize) -> Result<Line, AllocError>
        ensures { IfOk result (λ line. line ≡ []) }
    {
        let mut text = String::new(alloc);
        text.reserve(room)?;
        Ok(Line { text })
    }

    pub(crate) fn put(&mut self, piece: &str) -> Result<(), AllocError>
        requires { IsAscii piece.now }
        ensures { OnOk result (self.new ≡ self.old ++ piece.now) }
    {
        self.text.push_str(piece)
    }

    pub(crate) fn put_number(&mut self, value: i64) -> Result<(), AllocError>
        ensures { OnOk result (self.new ≡ self.old ++ signed_decimal value) }
    {
        let mut buffer = Buffer::new();
        self.put(buffer.format(value))
    }

    /// What was put.
    pub(crate) fn into_text(self, alloc: Global) -> Result<Text, AllocError>
        ensures { IfOk result (λ text. text ≡ self) }
    {
        let Line { text } = self;
        Text::from_string(alloc, text)
    }
}
