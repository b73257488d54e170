//! A file to its tokens, each with the place at which it begins.
//!
//! The definition goes over the bytes once, and the code does the same: what stands at the front is told and taken off, the place
//! walks over its bytes, and the rest is gone on with. The first front that is a fault ends it, so the diagnostic is that of the
//! first byte at which no token can be read. Before that a quicker pass counts the tokens, so that their list is made once in its
//! length. A file has at most 16,777,216 bytes.

ghost use Rattle.std.specs.Prelude.{◌≡◌, ◌≤◌, ◌<◌, ◌+◌, ◌^◌, ℕ, List, IfOk, length};
ghost use Rattle.lar_bytes.specs.Answers.{Answers};
ghost use Rattle.lar_source.specs.declared.file.Span.{Span};
ghost use Rattle.lar_lexer.specs.Lawful.{AreLawful, AreInOrder};
ghost use Rattle.lar_lexer.specs.Lexed as spec;
ghost use Rattle.lar_lexer.specs.Place as place;

use crate::front::{Fault, Front, front_of, skim};
use lar_tree::{Code, Diag, File, OrMemory, Span, Text, Texts, Token};
use std::alloc::{AllocError, Global};

fn step(at: Span, b: u8) -> Span
    requires line { at.line < 2 ^ 31 }
    requires col { at.col < 2 ^ 31 }
    ensures { result ≡ place.step at b }
{
    if b == b'\n' {
        Span {
            file: at.file,
            line: at.line + 1,
            col: 1,
        }
    } else {
        Span {
            file: at.file,
            line: at.line,
            col: at.col + 1,
        }
    }
}

/// The place after bytes that begin at a place.
pub fn walk(from: Span, bytes: &[u8]) -> Span
    requires line { from.line + length bytes.now < 2 ^ 31 }
    requires col { from.col + length bytes.now < 2 ^ 31 }
    ensures value { result ≡ place.walk from bytes.now }
    ensures line { result.line ≤ from.line + length bytes.now }
    ensures col { result.col ≤ from.col + length bytes.now }
{
    let mut at = from;
    for b in bytes {
        at = step(at, *b);
    }
    at
}

// A digit of base 16.
fn hex_digit(n: u8) -> u8
    requires { n < 16 }
    ensures value { result ≡ spec.hex_digit n }
    ensures ascii { result < 128 }
{
    if n < 10 { b'0' + n } else { b'a' - 10 + n }
}

fn hex_byte(alloc: Global, b: u8) -> Result<Text, AllocError>
    ensures { IfOk result (λ text. text ≡ spec.hex_byte b) }
{
    let mut digits = String::new(alloc);
    digits.push(hex_digit(b / 16) as char)?;
    digits.push(hex_digit(b % 16) as char)?;
    Text::from_string(alloc, digits)
}

// What the text of a fault's diagnostic names.
fn argument_of(alloc: Global, fault: Fault) -> Result<Text, AllocError>
    ensures { IfOk result (λ text. text ≡ spec.argument_of fault) }
{
    match fault {
        Fault::Unexpected(b) => hex_byte(alloc, b),
        Fault::NameTooLong => Text::copied(alloc, "64"),
        Fault::NumberTooLarge => Text::copied(alloc, "9223372036854775807"),
    }
}

fn code_of(fault: Fault) -> Code
    ensures { result ≡ spec.code_of fault }
{
    match fault {
        Fault::Unexpected(_) => Code::UnexpectedByte,
        Fault::NameTooLong => Code::PastLimit,
        Fault::NumberTooLarge => Code::PastLimit,
    }
}

fn diagnostic(alloc: Global, name: &Text, at: Span, fault: Fault) -> Result<Diag, AllocError>
    ensures { IfOk result (λ d. d ≡ spec.diagnostic name.now at fault) }
{
    let mut args = Texts::new(alloc);
    args.push(argument_of(alloc, fault)?)?;
    let file = Text::copied(alloc, name.as_str())?;
    Ok(Diag::new(code_of(fault), file, at.line, at.col, args))
}

// How many tokens stand before the end of a text in which each front can be read.
fn count(text: &[u8]) -> usize
    ensures { (file : List ℕ) (at : Span) → IfOk (spec.lexed_from file 0 at text.now) (λ tokens. result ≡ length tokens) }
{
    let mut n = 0;
    let mut rest = text;
    'fronts: while rest.len() > 0 {
        let (len, is_token) = skim(rest);
        if len == 0 {
            return n;
        }
        if is_token {
            n += 1;
        }
        let (_, after) = rest.split_at(len);
        rest = after;
    }
    n
}

fn read(alloc: Global, file: &File, number: u16) -> Result<Vec<Token>, OrMemory<Diag>>
    requires { length file.now.bytes ≤ 2 ^ 24 }
    ensures { Answers (λ tokens. tokens.items) result (spec.lexed file.now.name number file.now.bytes) }
{
    let mut rest = file.bytes.as_slice();
    let mut found = Vec::with_capacity(alloc, count(rest))?;
    let mut at = Span {
        file: number,
        line: 1,
        col: 1,
    };
    'fronts: while rest.len() > 0 {
        let len = match front_of(alloc, rest)? {
            Front::Gap(len) => len,
            Front::Token(kind, len) => {
                found.push(Token { kind, span: at })?;
                len
            }
            Front::Fault(fault) => {
                let d = diagnostic(alloc, &file.name, at, fault)?;
                return Err(OrMemory::Refused(d));
            }
        };
        let (read, after) = rest.split_at(len);
        at = walk(at, read);
        rest = after;
    }
    Ok(found)
}

/// The tokens of a file, whose number among the sources goes into their spans, or the diagnostic of the first byte at which none
/// can be read: a byte at which no token begins, a name of more than 64 bytes, a number above 9223372036854775807.
pub fn tokens(alloc: Global, file: &File, number: u16) -> Result<Vec<Token>, OrMemory<Diag>>
    requires { length file.now.bytes ≤ 2 ^ 24 }
    ensures answer { Answers (λ tokens. tokens.items) result (spec.lexed file.now.name number file.now.bytes) }
    // A name has 1 to 64 bytes and is no keyword, a number is from 0 to 9223372036854775807, and each place is in this file.
    ensures lawful { IfOk result (λ tokens. AreLawful number tokens.items) }
    // Each token begins after those before it.
    ensures in_order { IfOk result (λ tokens. AreInOrder tokens.items) }
    // There are at most as many as the file has bytes.
    ensures few { IfOk result (λ tokens. length tokens.items ≤ length file.now.bytes) }
{
    read(alloc, file, number)
}
