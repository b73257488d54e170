//! Cases of sources, for the lexer, the parser and the thin form.
//!
//! Each line of standard input is a word and a source. It is printed again, and under it what the word asks for: `tokens` the tokens
//! of the source or its diagnostic, `parse` whether its tree spells its tokens again or its diagnostic, `breaks` what each program
//! is refused with that breaks off after fewer tokens, and `thin` the numbers of the thin form. Every other line is a heading.
//! The file `stdout` has what is expected, written by hand. It stands on lar_lexer, lar_syntax and lar_tree.
#![tactic(auto)]

mod answers;
mod notation;

use lar_tree::{File, Text};
use std::io;
use std::io::Write;

fn main(rt: HostRuntime) -> io::Result<()> {
    let alloc = rt.alloc();
    for line in rt.lines(alloc) {
        let line = line?;
        println!(rt; "{line}")?;
        let Some((word, source)) = line.as_str().split_once(' ') else {
            continue;
        };
        let name = Text::copied(alloc, "main.larch")?;
        let bytes = notation::source_of(alloc, source)?;
        let answer = answers::answer(alloc, word, &File { name, bytes })?;
        rt.stdout().write_all(answer.as_slice())?;
    }
    Ok(())
}
