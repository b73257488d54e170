//! A fault that is told.
ghost use Rattle.std.specs.Prelude.{◌≡◌, List, ℕ, length};
ghost use Rattle.lar_source.specs.Code.{arity};
ghost use Rattle.lar_rules.specs.Fault.{fault, comes_before};

use lar_source::{Code, Diag, Span, Text, Texts};
use std::marker::Model;

/// A fault: the number of its file among the sources, its place, what it is, and what its text names.
#[derive(Debug, Drop)]
pub struct Told {
    file: usize,
    line: u32,
    col: u32,
    code: Code,
    args: Texts,
}

impl Model for Told {
    ghost use Rattle.lar_rules.specs.Fault.{Fault};
    ghost use Rattle.std.specs.Prelude.{◌≡◌, length};
    ghost use Rattle.lar_source.specs.Code.{arity};

    ghost Value = { Fault };

    ghost view = { λ t. record { file = t.file; line = t.line; col = t.col; code = t.code; args = t.args } };

    ghost invariant = { λ t. length t.args ≡ arity t.code };
}

impl Told {
    /// The fault of a code at a place of a file, with the texts that its line names.
    pub fn new(file: usize, at: Span, code: Code, args: Texts) -> Told
        requires { length args ≡ arity code }
        ensures { result ≡ fault file at code args }
    {
        Told {
            file,
            line: at.line,
            col: at.col,
            code,
            args,
        }
    }

    /// The number of its file among the sources.
    pub fn file(&self) -> usize
        ensures { result ≡ self.now.file }
    {
        self.file
    }

    /// The line, from 1.
    pub fn line(&self) -> u32
        ensures { result ≡ self.now.line }
    {
        self.line
    }

    /// The column in bytes, from 1.
    pub fn col(&self) -> u32
        ensures { result ≡ self.now.col }
    {
        self.col
    }

    /// What it is.
    pub fn code(&self) -> Code
        ensures { result ≡ self.now.code }
    {
        self.code
    }

    /// Whether a fault of this code at this place comes before it. The texts do not matter.
    pub fn is_after(&self, file: usize, at: Span, code: Code) -> bool
        ensures { (args : List (List ℕ)) → result ≡ comes_before (fault file at code args) self.now }
    {
        let by_code = code.number().cmp(&self.code.number());
        let by_col = at.col.cmp(&self.col);
        let by_line = at.line.cmp(&self.line);
        let by_file = file.cmp(&self.file);
        by_file.then(by_line.then(by_col.then(by_code))).is_lt()
    }

    /// The diagnostic, in the file of this name.
    pub fn into_diag(self, file: Text) -> Diag
        ensures { result ≡ record { code = self.code; file = file; line = self.line; col = self.col; args = self.args } }
    {
        let Told {
            file: _,
            line,
            col,
            code,
            args,
        } = self;
        Diag::new(code, file, line, col, args)
    }
}
