//! What a case asks for, as lines.

ghost use Rattle.std.specs.Prelude.{◌≤◌, ◌^◌, length};

use lar_syntax::{parse, thin, tokens};
use lar_tree::{Bytes, Diag, File, Kind, OrMemory, Token, spell_tree};
use std::alloc::{AllocError, Global};

const MOST: usize = 1 << 24;

fn line_of(alloc: Global, token: &Token) -> Result<String, AllocError> {
    let (line, col) = (token.span.line, token.span.col);
    match &token.kind {
        Kind::Name(name) => {
            let name = name.as_str();
            format!(in alloc; "{line}:{col} name {name}\n")
        }
        Kind::Number(number) => format!(in alloc; "{line}:{col} number {number}\n"),
        Kind::Word(keyword) => {
            let spelling = keyword.spelling();
            format!(in alloc; "{line}:{col} word {spelling}\n")
        }
        Kind::Sign(sign) => {
            let spelling = sign.spelling();
            format!(in alloc; "{line}:{col} sign {spelling}\n")
        }
    }
}

fn token_lines(alloc: Global, found: &[Token]) -> Result<Bytes, AllocError> {
    let mut out = Bytes::new(alloc);
    for token in found {
        out.append(line_of(alloc, token)?.as_bytes())?;
    }
    Ok(out)
}

fn same(kinds: &[Kind], tokens: &[Token]) -> bool {
    let mut rest = tokens;
    for kind in kinds {
        match rest {
            [token, after @ ..] if token.kind == *kind => rest = after,
            _ => return false,
        }
    }
    rest.is_empty()
}

// Whether the tree of the tokens spells them again, or the line of the diagnostic.
fn parsed(alloc: Global, file: &File, found: &[Token]) -> Result<Bytes, OrMemory<Diag>>
    requires { length file.now.bytes ≤ 2 ^ 24 }
{
    let tree = parse(alloc, file, found)?;
    let kinds = spell_tree(alloc, &tree)?;
    let word = if same(kinds.as_slice(), found) {
        "read\n"
    } else {
        "other\n"
    };
    Ok(Bytes::copied(alloc, word.as_bytes())?)
}

// The lines of an answer, or the line of the diagnostic.
fn told(alloc: Global, answer: Result<Bytes, OrMemory<Diag>>) -> Result<Bytes, AllocError> {
    match answer {
        Ok(lines) => Ok(lines),
        Err(OrMemory::Memory) => Err(AllocError),
        Err(OrMemory::Refused(refusal)) => {
            let mut out = Bytes::new(alloc);
            refusal.write(alloc, &mut out)?;
            Ok(out)
        }
    }
}

// What fewer tokens than all are refused with, each line once in a row.
fn broken_off(alloc: Global, file: &File, found: &[Token]) -> Result<Bytes, AllocError>
    requires { length file.now.bytes ≤ 2 ^ 24 }
{
    let mut out = Bytes::new(alloc);
    let mut last = Bytes::new(alloc);
    for n in 1..found.len() {
        let line = told(alloc, parsed(alloc, file, &found[..n]))?;
        if line != last {
            out.append(line.as_slice())?;
        }
        last = line;
    }
    Ok(out)
}

fn thin_line(alloc: Global, file: &File) -> Result<Bytes, AllocError> {
    let mut out = Bytes::new(alloc);
    let Some(numbers) = thin(alloc, file)? else {
        out.append(b"not thin\n")?;
        return Ok(out);
    };
    out.append(b"thin")?;
    for number in &numbers {
        out.append(format!(in alloc; " {number}")?.as_bytes())?;
    }
    out.push(b'\n')?;
    Ok(out)
}

fn asked(alloc: Global, word: &str, file: &File) -> Result<Bytes, OrMemory<Diag>>
    requires { length file.now.bytes ≤ 2 ^ 24 }
{
    if word == "thin" {
        return Ok(thin_line(alloc, file)?);
    }
    let found = tokens(alloc, file, 0)?;
    if word == "tokens" {
        return Ok(token_lines(alloc, found.as_slice())?);
    }
    if word == "breaks" {
        return Ok(broken_off(alloc, file, found.as_slice())?);
    }
    parsed(alloc, file, found.as_slice())
}

/// The lines that are printed under a case, and none under a heading.
pub fn answer(alloc: Global, word: &str, file: &File) -> Result<Bytes, AllocError> {
    let is_case = word == "tokens" || word == "parse" || word == "breaks" || word == "thin";
    if !is_case || file.bytes.len() > MOST {
        return Ok(Bytes::new(alloc));
    }
    told(alloc, asked(alloc, word, file))
}
