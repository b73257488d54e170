//! The least of the faults noted so far.
ghost use Rattle.std.specs.Prelude.{◌≡◌, ◌∷◌, [], List, ℕ, true, false, Some, None, length, if◌then◌else◌, IfOk, OnOk, OnErr};
ghost use Rattle.std.specs.Fmt.{decimal};
ghost use Rattle.lar_source.specs.Code.{arity};
ghost use Rattle.lar_rules.specs.Fault.{fault, kept};

use crate::Told;
use lar_source::{Code, Span, Text, Texts};
use std::alloc::{AllocError, Global};
use std::marker::Model;

/// The fault that comes before all others noted so far.
#[derive(Debug, Drop)]
pub struct First {
    best: Option<Told>,
}

impl Model for First {
    ghost use Rattle.std.specs.Prelude.{Option};
    ghost use Rattle.lar_rules.specs.Fault.{Fault};

    ghost Value = { Option Fault };

    ghost view = { λ f. f.best };
}

fn decimal_text(alloc: Global, n: usize) -> Result<Text, AllocError>
    ensures { IfOk result (λ text. text ≡ decimal n) }
{
    Text::from_string(alloc, format!(in alloc; "{n}")?)
}

impl First {
    /// No fault yet.
    pub fn new() -> First
        ensures { result ≡ None }
    {
        First { best: None }
    }

    /// Whether a fault of this code at this place would be kept. Asked before a text is made that may be long.
    pub fn takes(&self, file: usize, at: Span, code: Code) -> bool
        ensures yes { result ≡ true → (args : List (List ℕ)) → kept self.now (fault file at code args) ≡ Some (fault file at code args) }
        ensures no { result ≡ false → (args : List (List ℕ)) → kept self.now (fault file at code args) ≡ self.now }
    {
        match &self.best {
            None => true,
            Some(told) => told.is_after(file, at, code),
        }
    }

    /// Notes a fault with the texts that its line names.
    pub fn note(&mut self, file: usize, at: Span, code: Code, args: Texts)
        requires { length args ≡ arity code }
        ensures { self.new ≡ kept self.old (fault file at code args) }
    {
        if self.takes(file, at, code) {
            self.best = Some(Told::new(file, at, code, args));
        }
    }

    /// Notes a fault whose line names nothing.
    pub fn note_none(&mut self, alloc: Global, file: usize, at: Span, code: Code)
        requires { arity code ≡ 0 }
        ensures { self.new ≡ kept self.old (fault file at code []) }
    {
        self.note(file, at, code, Texts::new(alloc));
    }

    /// Notes a fault whose line names one text, which is copied only where the fault is kept. Without memory nothing changes.
    pub fn note_name(
        &mut self,
        alloc: Global,
        file: usize,
        at: Span,
        code: Code,
        name: &Text,
    ) -> Result<(), AllocError>
        requires { arity code ≡ 1 }
        ensures ok { OnOk result (self.new ≡ kept self.old (fault file at code (name.now ∷ []))) }
        ensures err { OnErr result (self.new ≡ self.old) }
    {
        if !self.takes(file, at, code) {
            return Ok(());
        }
        let mut args = Texts::new(alloc);
        args.push(Text::copied(alloc, name.as_str())?)?;
        self.note(file, at, code, args);
        Ok(())
    }

    /// Notes a fault whose line names one number. Without memory nothing changes.
    pub fn note_count(
        &mut self,
        alloc: Global,
        file: usize,
        at: Span,
        code: Code,
        count: usize,
    ) -> Result<(), AllocError>
        requires { arity code ≡ 1 }
        ensures ok { OnOk result (self.new ≡ kept self.old (fault file at code (decimal count ∷ []))) }
        ensures err { OnErr result (self.new ≡ self.old) }
    {
        if !self.takes(file, at, code) {
            return Ok(());
        }
        let mut args = Texts::new(alloc);
        args.push(decimal_text(alloc, count)?)?;
        self.note(file, at, code, args);
        Ok(())
    }

    /// Notes a fault whose line names two numbers. Without memory nothing changes.
    pub fn note_counts(
        &mut self,
        alloc: Global,
        file: usize,
        at: Span,
        code: Code,
        wanted: usize,
        found: usize,
    ) -> Result<(), AllocError>
        requires { arity code ≡ 2 }
        ensures ok { OnOk result (self.new ≡ kept self.old (fault file at code (decimal wanted ∷ decimal found ∷ []))) }
        ensures err { OnErr result (self.new ≡ self.old) }
    {
        if !self.takes(file, at, code) {
            return Ok(());
        }
        let mut args = Texts::new(alloc);
        args.push(decimal_text(alloc, wanted)?)?;
        args.push(decimal_text(alloc, found)?)?;
        self.note(file, at, code, args);
        Ok(())
    }

    /// The fault that comes before all others, where there is one.
    pub fn into_fault(self) -> Option<Told>
        ensures { result ≡ self }
    {
        let First { best } = self;
        best
    }
}
