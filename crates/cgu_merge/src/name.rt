//! The name of a unit.
ghost use Rattle.std.specs.Prelude.{◌≡◌, ◌<◌, ◌++◌, length, map, OnOk, IfOk, All, string_bytes};
ghost use Rattle.std.specs.Str.{IsAscii};
ghost use Rattle.text_order.specs.TextOrder.{text_at};
ghost use Rattle.cgu_merge.specs.Merging.{behind, plus};

use lar_bytes::Text;
use std::alloc::{AllocError, Global};

/// Appends a text.
fn put(text: &mut String, piece: &str) -> Result<(), AllocError>
    requires text { IsAscii (string_bytes text.old) }
    requires piece { IsAscii piece.now }
    ensures put { OnOk result (string_bytes text.new ≡ string_bytes text.old ++ piece.now) }
    ensures ascii { OnOk result (IsAscii (string_bytes text.new)) }
{
    text.push_str(piece)
}

/// Appends the names at the places, each behind a `+`.
fn put_behind(text: &mut String, names: &[Text], places: &[usize]) -> Result<(), AllocError>
    requires text { IsAscii (string_bytes text.old) }
    requires places { All (λ p. p < length names.now) places.now }
    ensures put { OnOk result (string_bytes text.new ≡ string_bytes text.old ++ behind (map (text_at names.now) places.now)) }
    ensures ascii { OnOk result (IsAscii (string_bytes text.new)) }
{
    for place in places {
        put(text, "+")?;
        put(text, names[*place].as_str())?;
    }
    Ok(())
}

/// Appends the names at the places, with `+` between them.
fn put_names(text: &mut String, names: &[Text], places: &[usize]) -> Result<(), AllocError>
    requires text { IsAscii (string_bytes text.old) }
    requires places { All (λ p. p < length names.now) places.now }
    ensures put { OnOk result (string_bytes text.new ≡ string_bytes text.old ++ plus (map (text_at names.now) places.now)) }
    ensures ascii { OnOk result (IsAscii (string_bytes text.new)) }
{
    match places {
        [] => Ok(()),
        [first, others @ ..] => {
            put(text, names[*first].as_str())?;
            put_behind(text, names, others)
        }
    }
}

/// The names at the places, joined with `+`.
pub(crate) fn joined_names(
    alloc: Global,
    names: &[Text],
    places: &[usize],
) -> Result<Text, AllocError>
    requires { All (λ p. p < length names.now) places.now }
    ensures { IfOk result (λ text. text ≡ plus (map (text_at names.now) places.now)) }
{
    let mut text = String::new(alloc);
    put_names(&mut text, names, places)?;
    Text::from_string(alloc, text)
}
