//! A file's tokens to its tree.
//!
//! The parser goes down the grammar and looks one token ahead. It is proved against the grammar as a machine: where it reads a part
//! of the grammar, the machine goes on behind that part's symbols, whatever symbols come after them; and where it stops for a token
//! that may not stand there, the machine stops at the same token. So each contract says three things: which symbols are read, which
//! tokens the tree that is made of them spells, and that the rest is no longer than it was.
//! An outermost expression or type sets the room, how many tokens it may have, and clears it behind; each token that is taken takes
//! one from it. Levels of blocks and modules are counted by a parameter, from 64 down.

ghost use Rattle.std.specs.Prelude.{◌≡◌, ◌≤◌, ◌^◌, IfOk, length};
ghost use Rattle.lar_syntax.specs.Parsed as spec;
ghost use Rattle.lar_syntax.specs.Parsed.{Parses};

mod cursor;
mod exprs;
mod items;
mod lists;
mod stmts;
mod types;

use cursor::{Parser, Stop};
use lar_lexer::walk;
use lar_tree::{Code, Diag, File, OrMemory, Span, Text, Texts, Token, Tree};
use std::alloc::{AllocError, Global};

/// The tree of a file's tokens, or the diagnostic of the first token with which they no longer begin a program. Where they only break
/// off, it stands at the end of the file.
pub fn parse(alloc: Global, file: &File, tokens: &[Token]) -> Result<Tree, OrMemory<Diag>>
    requires { length file.now.bytes ≤ 2 ^ 24 }
    ensures { Parses file.now tokens.now result }
{
    let mut parser = Parser {
        alloc,
        rest: tokens,
        room: None,
    };
    match parser.program() {
        Ok(items) => {
            let name = Text::copied(alloc, file.name.as_str())?;
            Ok(Tree { file: name, items })
        }
        Err(Stop::Memory) => Err(OrMemory::Memory),
        Err(Stop::Syntax) => {
            let d = syntax_error(alloc, file, parser.rest)?;
            Err(OrMemory::Refused(d))
        }
    }
}

/// The diagnostic of the first of these tokens, which may not stand there, or of the end of the file where there is none.
fn syntax_error(alloc: Global, file: &File, rest: &[Token]) -> Result<Diag, AllocError>
    requires { length file.now.bytes ≤ 2 ^ 24 }
    ensures { IfOk result (λ d. d ≡ spec.syntax_error file.now.name (spec.place file.now.bytes rest.now)) }
{
    let at = place(file.bytes.as_slice(), rest);
    let name = Text::copied(alloc, file.name.as_str())?;
    Ok(Diag::new(Code::SyntaxError, name, at.line, at.col, Texts::new(alloc)))
}

/// Where the first of these tokens begins, or the end of the file where there is none.
fn place(bytes: &[u8], rest: &[Token]) -> Span
    requires { length bytes.now ≤ 2 ^ 24 }
    ensures { result ≡ spec.place bytes.now rest.now }
{
    match rest {
        [token, ..] => token.span,
        [] => walk(
            Span {
                file: 0,
                line: 1,
                col: 1,
            },
            bytes,
        ),
    }
}
