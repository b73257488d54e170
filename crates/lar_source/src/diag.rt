//! Diagnostics: a fault of the sources, and the line that says it.
//!
//! The line is `FILE:LINE:COL: CODE TEXT`. The text is that of the code, with an argument in the place of each part in capitals;
//! a diagnostic keeps by its type that it has as many arguments as its text has such parts. Whoever finds a fault makes the
//! diagnostic; the command line writes it.

ghost use Rattle.std.specs.Prelude.{◌≡◌, ◌∷◌, ◌++◌, [], false, length, string_bytes, IfOk, OnOk, OnErr};
ghost use Rattle.lar_source.specs.Code.{arity, code_name, filled, row};
ghost use Rattle.lar_source.specs.Diagnostic.{line_of, place_text};

use crate::{Bytes, Code, Text, Texts};
use std::alloc::{AllocError, Global};
use std::marker::Model;

/// A fault of the sources: what it is, and the name of the file, the line and the column in bytes at which it stands, both from 1.
#[derive(Debug, Drop)]
pub struct Diag {
    code: Code,
    file: Text,
    line: u32,
    col: u32,
    args: Texts,
}

impl Model for Diag {
    ghost use Rattle.lar_source.specs.Diagnostic.{Diagnostic, IsDiagnostic};

    ghost Value = { Diagnostic };

    ghost view = { λ d. record { code = d.code; file = d.file; line = d.line; col = d.col; args = d.args } };

    ghost invariant = { λ d. IsDiagnostic (record { code = d.code; file = d.file; line = d.line; col = d.col; args = d.args }) };
}

fn place(alloc: Global, file: &str, line: u32, col: u32) -> Result<String, AllocError>
    ensures { IfOk result (λ text. string_bytes text ≡ place_text file.now line col) }
{
    format!(in alloc; "{file}:{line}:{col}: ")
}

fn put_code(code: Code, out: &mut Bytes) -> Result<(), AllocError>
    ensures { OnOk result (out.new ≡ out.old ++ code_name code) }
{
    let number = code.number();
    out.append(&[b'E', b'0' + number / 10, b'0' + number % 10])
}

fn put_text(text: &[u8], args: &[Text], out: &mut Bytes) -> Result<(), AllocError>
    ensures { OnOk result (out.new ≡ out.old ++ filled false text.now args.now) }
{
    let mut left = text;
    let mut rest = args;
    let mut inside = false;
    while let [b, after @ ..] = left {
        let capital = b.is_ascii_uppercase();
        if !capital {
            out.push(*b)?;
        } else if !inside {
            if let [first, others @ ..] = rest {
                out.append(first.as_str().as_bytes())?;
                rest = others;
            }
        }
        inside = capital;
        left = after;
    }
    Ok(())
}

impl Diag {
    /// The diagnostic of a code at a place.
    pub fn new(code: Code, file: Text, line: u32, col: u32, args: Texts) -> Diag
        requires { length args ≡ arity code }
        ensures { result ≡ record { code = code; file = file; line = line; col = col; args = args } }
    {
        Diag {
            code,
            file,
            line,
            col,
            args,
        }
    }

    /// What the fault is.
    pub fn code(&self) -> Code
        ensures { result ≡ self.now.code }
    {
        self.code
    }

    /// The name of the file.
    pub fn file(&self) -> &Text
        ensures { result.now ≡ self.now.file }
    {
        &self.file
    }

    /// The line, from 1.
    pub fn line(&self) -> u32
        ensures { result ≡ self.now.line }
    {
        self.line
    }

    /// The column in bytes, from 1.
    pub fn col(&self) -> u32
        ensures { result ≡ self.now.col }
    {
        self.col
    }

    /// What stands in the text for its parts in capitals, in order.
    pub fn args(&self) -> &[Text]
        ensures list { result.now ≡ self.now.args }
        ensures each { length result.now ≡ arity self.now.code }
    {
        self.args.as_slice()
    }

    fn whole_line(&self, alloc: Global) -> Result<Bytes, AllocError>
        ensures { IfOk result (λ line. line ≡ line_of self.now) }
    {
        let mut line = Bytes::new(alloc);
        line.append(place(alloc, self.file.as_str(), self.line, self.col)?.as_bytes())?;
        put_code(self.code, &mut line)?;
        line.push(b' ')?;
        put_text(self.code.text().as_bytes(), self.args.as_slice(), &mut line)?;
        line.push(b'\n')?;
        Ok(line)
    }

    /// Puts its line at the end of `out`. Without memory nothing changes.
    pub fn write(&self, alloc: Global, out: &mut Bytes) -> Result<(), AllocError>
        ensures ok { OnOk result (out.new ≡ out.old ++ line_of self.now) }
        ensures err { OnErr result (out.new ≡ out.old) }
    {
        let line = self.whole_line(alloc)?;
        out.append(line.as_slice())
    }
}
