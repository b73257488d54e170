//! A short text, which lies in its value and takes no memory beside it.
//!
//! Most names and symbols are short. With their bytes inside, a list of tokens is one block of memory, and a token is made
//! without a request for memory.

ghost use Rattle.std.specs.Prelude.{◌≡◌, ◌≤◌, length};
ghost use Rattle.std.specs.Str.{IsAscii};

use std::marker::Model;
use std::str;

/// How many bytes a short text has at most.
pub(crate) const ROOM: usize = 22;

/// ASCII text of at most [`ROOM`] bytes.
#[derive(Debug, Drop)]
pub(crate) struct Short {
    len: u8,
    bytes: [u8; ROOM],
}

impl Model for Short {
    ghost use Rattle.std.specs.Prelude.{ℕ, List, ◌≤◌, take};
    ghost use Rattle.std.specs.Str.{IsAscii};

    ghost Value = { List ℕ };

    ghost view = { λ s. take s.len s.bytes };

    ghost invariant = { λ s. (s.len ≤ 22) × IsAscii (take s.len s.bytes) };
}

impl Short {
    /// A copy of a text that fits.
    pub(crate) fn copied(text: &str) -> Short
        requires fits { length text.now ≤ 22 }
        requires ascii { IsAscii text.now }
        ensures { result ≡ text.now }
    {
        let len = text.len();
        let mut bytes = [0; ROOM];
        bytes[..len].copy_from_slice(text.as_bytes());
        Short {
            len: len as u8,
            bytes,
        }
    }

    pub(crate) fn as_str(&self) -> &str
        ensures text { result.now ≡ self.now }
        ensures ascii { IsAscii result.now }
    {
        let text = &self.bytes[..self.len as usize];
        // The bytes are ASCII, and so UTF-8: this is what the invariant of the type says.
        unsafe { str::from_utf8_unchecked(text) }
    }
}
