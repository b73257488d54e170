//! The thin form: a file whose `main` prints numbers and does nothing else.
//!
//! `fn main() { print(7); print(8); }` has it, with blanks before, between and behind its parts: fn, main, the brackets, and
//! for each number print, (, the number, ) and ;. At least one blank stands between fn and main. There are at most 1,000 prints,
//! and a number is at most 9223372036854775807. The form is the first part of the language that is built.
//!
//! The reader takes each part from the front and hands on the rest, so it passes over each byte a bounded number of times. Its
//! contract is twofold: by the grammar, in which nothing is said of an order of reading, and by a function on bytes, which the
//! crates above cite to say what a command answers.

ghost use Rattle.std.specs.Prelude.{◌≡◌, ◌≤◌, List, ℤ, length, IfOk, IfSome};
ghost use Rattle.std.specs.Option.{option_map};
ghost use Rattle.lar_lexer.specs.Reading as reading;
ghost use Rattle.lar_lexer.specs.Thin.{IsThin};

use lar_tree::File;
use std::alloc::{AllocError, Global};

const MAX_PRINTS: u32 = 1000;

const MAX_NUMBER: u64 = 9223372036854775807;

fn skip_blanks(bytes: &[u8]) -> &[u8]
    ensures { result.now ≡ reading.after_blanks bytes.now }
{
    let mut rest = bytes;
    while let [b' ' | b'\t' | b'\r' | b'\n', after @ ..] = rest {
        rest = after;
    }
    rest
}

fn skip_word<'a>(word: &[u8], bytes: &'a [u8]) -> Option<&'a [u8]>
    ensures { option_map (λ rest. rest.now) result ≡ reading.after_word word.now bytes.now }
{
    match word {
        [] => Some(bytes),
        [w, ws @ ..] => match bytes {
            [] => None,
            [b, bs @ ..] => { if w == b { skip_word(ws, bs) } else { None } }
        },
    }
}

fn skip_part<'a>(word: &[u8], bytes: &'a [u8]) -> Option<&'a [u8]>
    ensures { option_map (λ rest. rest.now) result ≡ reading.part word.now bytes.now }
{
    skip_word(word, skip_blanks(bytes))
}

fn read_number(bytes: &[u8]) -> Option<(i64, &[u8])>
    ensures { option_map (λ x. (x.0, x.1.now)) result ≡ reading.number_at bytes.now }
{
    let mut number = 0u64;
    let mut rest = bytes;
    while let [digit @ b'0'..=b'9', after @ ..] = rest {
        let digit = (digit - b'0') as u64;
        if number > (MAX_NUMBER - digit) / 10 {
            return None;
        }
        number = number * 10 + digit;
        rest = after;
    }
    if rest.len() == bytes.len() {
        return None;
    }
    Some((number as i64, rest))
}

#[tactic(auto, unfolding(crate::specs::Reading::print_at))]
fn read_print(bytes: &[u8]) -> Option<(i64, &[u8])>
    ensures { option_map (λ x. (x.0, x.1.now)) result ≡ reading.print_at bytes.now }
{
    let rest = skip_part(b"print", bytes)?;
    let rest = skip_part(b"(", rest)?;
    let (number, rest) = read_number(skip_blanks(rest))?;
    let rest = skip_part(b")", rest)?;
    let rest = skip_part(b";", rest)?;
    Some((number, rest))
}

fn read_prints(alloc: Global, bytes: &[u8]) -> Result<(Vec<i64>, &[u8]), AllocError>
    ensures prints { IfOk result (λ x. (x.0.items, x.1.now) ≡ reading.prints_at 1000 bytes.now) }
    ensures count { IfOk result (λ x. length x.0.items ≤ 1000) }
{
    let mut numbers = Vec::new(alloc);
    let mut rest = bytes;
    for _ in 0..MAX_PRINTS {
        let Some((number, after)) = read_print(rest) else {
            return Ok((numbers, rest));
        };
        numbers.push(number)?;
        rest = after;
    }
    Ok((numbers, rest))
}

#[tactic(auto, unfolding(crate::specs::Reading::head_at))]
fn read_head(bytes: &[u8]) -> Option<&[u8]>
    ensures { option_map (λ rest. rest.now) result ≡ reading.head_at bytes.now }
{
    let rest = skip_part(b"fn", bytes)?;
    if skip_blanks(rest).len() == rest.len() {
        return None;
    }
    let rest = skip_part(b"main", rest)?;
    let rest = skip_part(b"(", rest)?;
    let rest = skip_part(b")", rest)?;
    skip_part(b"{", rest)
}

fn is_end(bytes: &[u8]) -> bool
    ensures { result ≡ reading.is_end bytes.now }
{
    match skip_part(b"}", bytes) {
        Some(rest) => skip_blanks(rest).is_empty(),
        None => false,
    }
}

fn read(alloc: Global, bytes: &[u8]) -> Result<Option<Vec<i64>>, AllocError>
    ensures numbers { IfOk result (λ answer. option_map (λ numbers. numbers.items) answer ≡ reading.thin bytes.now) }
    ensures count { IfOk result (λ answer. IfSome answer (λ numbers. length numbers.items ≤ 1000)) }
{
    let Some(rest) = read_head(bytes) else {
        return Ok(None);
    };
    let (numbers, rest) = read_prints(alloc, rest)?;
    Ok(if is_end(rest) { Some(numbers) } else { None })
}

/// The numbers that a file in the thin form prints, or nothing where the file has another form.
/// Only want of memory is an error.
pub fn thin(alloc: Global, file: &File) -> Result<Option<Vec<i64>>, AllocError>
    // What is read has the form.
    ensures found { IfOk result (λ answer. IfSome answer (λ numbers. IsThin file.now.bytes numbers.items)) }
    // What has the form is read.
    ensures only { (ns : List ℤ) → IsThin file.now.bytes ns → IfOk result (λ answer. option_map (λ numbers. numbers.items) answer ≡ Some ns) }
    // The numbers, as the crates above compute them.
    ensures numbers { IfOk result (λ answer. option_map (λ numbers. numbers.items) answer ≡ reading.thin file.now.bytes) }
    ensures count { IfOk result (λ answer. IfSome answer (λ numbers. length numbers.items ≤ 1000)) }
{
    read(alloc, file.bytes.as_slice())
}
