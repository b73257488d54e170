//! The words of a text, one after the other, without taking memory.

ghost use Rattle.std.specs.Prelude.{◌≡◌, ◌+◌, ◌∷◌, [], ⊤, length, MatchOption};
ghost use Rattle.std.specs.Str.{IsUtf8};
ghost use Rattle.std.specs.List.{slice_split};
ghost use Rattle.make_flags.specs.Words.{is_space};

/// The first word of a text and, where a space ends it, what comes after that space.
pub(crate) fn first_word(text: &str) -> (&str, Option<&str>)
    ensures words { MatchOption result.1 (slice_split is_space text.now ≡ result.0.now ∷ [])
        (λ rest. slice_split is_space text.now ≡ result.0.now ∷ slice_split is_space rest.now) }
    ensures places { MatchOption result.1 (length result.0.now ≡ length text.now)
        (λ rest. length result.0.now + 1 + length rest.now ≡ length text.now) }
    ensures text { MatchOption result.1 ⊤ (λ rest. IsUtf8 rest.now) }
{
    match text.split_once(' ') {
        Some((word, rest)) => (word, Some(rest)),
        None => (text, None),
    }
}
