//! What stands at the front of a text: a blank or a comment, a token, or a fault.
//!
//! The definition takes the longest of all that begins there. The first byte, or for a comment the first two, tell which kind that is,
//! so the code looks at one kind alone and reads it to its end: each byte of a token is read a bounded number of times.

ghost use Rattle.std.specs.Prelude.{◌≡◌, ◌≤◌, ◌<◌, ◌^◌, IfOk, IfSome, length, min, slice_index, true};
ghost use Rattle.std.specs.List.{prefix_len};
ghost use Rattle.std.specs.Str.{IsAscii};
ghost use Rattle.lar_tree.specs.Sign.{sign_spelling};
ghost use Rattle.lar_lexer.specs.ByFirst.{by_first, skimmed, IsWithin};
ghost use Rattle.lar_lexer.specs.Front as spec;
ghost use Rattle.lar_lexer.specs.Thin.{is_blank, is_digit, value_of};

use lar_tree::{Keyword, Kind, Sign, Text};
use std::alloc::{AllocError, Global};

const MAX_NAME: usize = 64;

/// Why no token can be read.
#[derive(Clone, Copy, Debug, PartialEq, Eq)]
pub(crate) enum Fault {
    /// No token begins at this byte.
    Unexpected(u8),
    /// A name has more than 64 bytes.
    NameTooLong,
    /// A number is above 9223372036854775807.
    NumberTooLarge,
}

/// What stands at the front of a text.
#[derive(Debug, Drop)]
pub(crate) enum Front {
    /// So many bytes that are no token: a blank or a comment.
    Gap(usize),
    /// A token, and how many bytes it has.
    Token(Kind, usize),
    Fault(Fault),
}

fn sign(text: &[u8]) -> Option<Sign>
    ensures value { result ≡ spec.sign_at text.now }
    ensures within { IfSome result (λ s. (1 ≤ length (sign_spelling s)) × (length (sign_spelling s) ≤ length text.now)) }
{
    match text {
        [b':', b':', ..] => Some(Sign::PathSep),
        [b'=', b'=', ..] => Some(Sign::Equal),
        [b'!', b'=', ..] => Some(Sign::NotEqual),
        [b'<', b'=', ..] => Some(Sign::AtMost),
        [b'>', b'=', ..] => Some(Sign::AtLeast),
        [b'&', b'&', ..] => Some(Sign::And),
        [b'|', b'|', ..] => Some(Sign::Or),
        [b'-', b'>', ..] => Some(Sign::Arrow),
        [b'(', ..] => Some(Sign::OpenParen),
        [b')', ..] => Some(Sign::CloseParen),
        [b'{', ..] => Some(Sign::OpenBrace),
        [b'}', ..] => Some(Sign::CloseBrace),
        [b'[', ..] => Some(Sign::OpenBracket),
        [b']', ..] => Some(Sign::CloseBracket),
        [b',', ..] => Some(Sign::Comma),
        [b';', ..] => Some(Sign::Semicolon),
        [b':', ..] => Some(Sign::Colon),
        [b'.', ..] => Some(Sign::Dot),
        [b'=', ..] => Some(Sign::Assign),
        [b'<', ..] => Some(Sign::Less),
        [b'>', ..] => Some(Sign::Greater),
        [b'+', ..] => Some(Sign::Plus),
        [b'-', ..] => Some(Sign::Minus),
        [b'*', ..] => Some(Sign::Star),
        [b'/', ..] => Some(Sign::Slash),
        [b'%', ..] => Some(Sign::Percent),
        [b'!', ..] => Some(Sign::Not),
        [b'#', ..] => Some(Sign::Hash),
        _ => None,
    }
}

fn is_blank(b: u8) -> bool
    ensures { result ≡ is_blank b }
{
    b == b' ' || b == b'\t' || b == b'\n' || b == b'\r'
}

fn is_digit(b: u8) -> bool
    ensures { result ≡ is_digit b }
{
    b >= b'0' && b <= b'9'
}

fn begins_word(b: u8) -> bool
    ensures { result ≡ spec.begins_word b }
{
    b.is_ascii_alphabetic() || b == b'_'
}

fn is_in_word(b: u8) -> bool
    ensures { result ≡ spec.is_in_word b }
{
    b.is_ascii_alphanumeric() || b == b'_'
}

#[tactic(auto, using(crate::proofs::Runs::some))]
fn line_len(text: &[u8]) -> usize
    ensures value { result ≡ prefix_len spec.is_in_line text.now }
    ensures some { 0 < length text.now → spec.is_in_line (slice_index text.now 0) ≡ true → 1 ≤ result }
    ensures most { result ≤ length text.now }
{
    text.iter().take_while(|b| **b != b'\n').count()
}

#[tactic(auto, using(crate::proofs::Runs::some))]
fn digits_len(text: &[u8]) -> usize
    ensures value { result ≡ prefix_len is_digit text.now }
    ensures some { 0 < length text.now → is_digit (slice_index text.now 0) ≡ true → 1 ≤ result }
    ensures most { result ≤ length text.now }
{
    text.iter().take_while(|b| is_digit(**b)).count()
}

#[tactic(auto, using(crate::proofs::Runs::some))]
fn word_len(text: &[u8]) -> usize
    ensures value { result ≡ prefix_len spec.is_in_word text.now }
    ensures some { 0 < length text.now → spec.is_in_word (slice_index text.now 0) ≡ true → 1 ≤ result }
    ensures most { result ≤ length text.now }
{
    text.iter().take_while(|b| is_in_word(**b)).count()
}

// The value of digits, or 2^63 where it is more.
fn value(digits: &[u8]) -> u128
    ensures { result ≡ min (value_of digits.now) (2 ^ 63) }
{
    let mut n: u128 = 0;
    for b in digits {
        n = (n * 10 + u128::from(b.saturating_sub(b'0'))).min(1 << 63);
    }
    n
}

fn number(digits: &[u8]) -> Front
    ensures value { result ≡ spec.number_front digits.now }
    ensures within { 1 ≤ length digits.now → IsWithin (length digits.now) result }
{
    let n = value(digits);
    if n < 1 << 63 {
        Front::Token(Kind::Number(n as i64), digits.len())
    } else {
        Front::Fault(Fault::NumberTooLarge)
    }
}

// A name from its bytes.
#[tactic(auto, using(crate::proofs::Runs::is_text))]
fn name_of(alloc: Global, word: &[u8]) -> Result<Text, AllocError>
    requires { IsAscii word.now }
    ensures { IfOk result (λ name. name ≡ word.now) }
{
    Text::copied(alloc, str::from_utf8(word).unwrap())
}

fn word(alloc: Global, word: &[u8]) -> Result<Front, AllocError>
    requires { IsAscii word.now }
    ensures value { IfOk result (λ f. f ≡ spec.word_front word.now) }
    ensures within { IfOk result (λ f. 1 ≤ length word.now → IsWithin (length word.now) f) }
{
    let len = word.len();
    if let Some(keyword) = Keyword::of(word) {
        return Ok(Front::Token(Kind::Word(keyword), len));
    }
    if len > MAX_NAME {
        return Ok(Front::Fault(Fault::NameTooLong));
    }
    let name = name_of(alloc, word)?;
    Ok(Front::Token(Kind::Name(name), len))
}

fn sign_or_fault(text: &[u8]) -> Front
    requires { 0 < length text.now }
    ensures value { result ≡ spec.sign_or_fault text.now }
    ensures within { IsWithin (length text.now) result }
{
    match sign(text) {
        Some(sign) => Front::Token(Kind::Sign(sign), sign.spelling().len()),
        None => Front::Fault(Fault::Unexpected(text[0])),
    }
}

fn front_by_first(alloc: Global, text: &[u8]) -> Result<Front, AllocError>
    requires { 0 < length text.now }
    ensures value { IfOk result (λ f. f ≡ by_first text.now) }
    ensures within { IfOk result (λ f. IsWithin (length text.now) f) }
{
    let b = text[0];
    if is_blank(b) {
        return Ok(Front::Gap(1));
    }
    if text.starts_with(b"//") {
        return Ok(Front::Gap(line_len(text)));
    }
    if is_digit(b) {
        return Ok(number(&text[..digits_len(text)]));
    }
    if begins_word(b) {
        return word(alloc, &text[..word_len(text)]);
    }
    Ok(sign_or_fault(text))
}

/// How many bytes the front of a text has, as long as it is within the limits, and whether it is a token; 0 where nothing begins.
pub(crate) fn skim(text: &[u8]) -> (usize, bool)
    requires { 0 < length text.now }
    ensures value { result ≡ skimmed text.now }
    ensures within { result.0 ≤ length text.now }
{
    let b = text[0];
    if is_blank(b) {
        return (1, false);
    }
    if text.starts_with(b"//") {
        return (line_len(text), false);
    }
    if is_digit(b) {
        return (digits_len(text), true);
    }
    if begins_word(b) {
        return (word_len(text), true);
    }
    match sign(text) {
        Some(sign) => (sign.spelling().len(), true),
        None => (0, false),
    }
}

/// What stands at the front of a text, and of how many bytes it is.
pub(crate) fn front_of(alloc: Global, text: &[u8]) -> Result<Front, AllocError>
    requires { 0 < length text.now }
    ensures value { IfOk result (λ f. f ≡ spec.front text.now) }
    ensures within { IfOk result (λ f. IsWithin (length text.now) f) }
{
    front_by_first(alloc, text)
}
