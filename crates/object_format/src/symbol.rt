//! Symbols as texts: what bytes are one.

ghost use Rattle.std.specs.Prelude.{◌≡◌, IfSome, is_some};
ghost use Rattle.std.specs.List.{list_all};
ghost use Rattle.std.specs.Char.{is_ascii_graphic};
ghost use Rattle.object_format.specs.ObjectReading.{is_symbol};

use std::str::from_utf8;

fn are_signs(bytes: &[u8]) -> bool
    ensures { result ≡ list_all is_ascii_graphic bytes.now }
{
    bytes.iter().all(|byte| byte.is_ascii_graphic())
}

/// The text of a symbol, or `None` where the bytes are none.
pub(crate) fn symbol_text(bytes: &[u8]) -> Option<&str>
    ensures text { IfSome result (λ text. text.now ≡ bytes.now) }
    ensures some { is_some result ≡ is_symbol bytes.now }
{
    if bytes.is_empty() || !are_signs(bytes) {
        return None;
    }
    from_utf8(bytes).ok()
}
