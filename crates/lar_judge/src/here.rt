//! How types are printed where an expression is written.
ghost use Rattle.std.specs.Prelude.{◌≡◌, ◌<◌, length, IfOk, OnOk};
ghost use Rattle.type_table.specs.Rows.{type_at};
ghost use Rattle.type_sizes.specs.Spelling.{text_of};
ghost use Rattle.lar_rules.specs.Fault.{kept};
ghost use Rattle.lar_rules.specs.Written.{Site};
ghost use Rattle.lar_rules.specs.Judged.{other_type};
ghost use Rattle.lar_judge.specs.Here.{IsHere};

use lar_source::{Code, Span, Text, Texts};
use lar_told::First;
use std::alloc::{AllocError, Global};
use type_sizes::{lengths, type_text};
use type_table::{StructDecl, Types};

/// What the fault of an expression needs of the place where it is written: the number of the file, and the names by which types are
/// printed.
#[derive(Clone, Copy)]
pub struct Here<'a> {
    pub file: usize,
    pub structs: &'a [StructDecl],
    pub generics: &'a [Text],
}

impl<'a> Here<'a> {
    /// The text of a type. Its length is computed first, in one pass over the rows, and reserved whole.
    fn printed(&self, alloc: Global, types: &Types, number: usize) -> Result<Text, AllocError>
        requires { number < length types.now }
        ensures { IfOk result (λ text. text ≡ text_of self.now.structs.now self.now.generics.now (type_at types.now number)) }
    {
        let mut known = Vec::new(alloc);
        lengths(types, self.structs, self.generics, &mut known)?;
        type_text(
            alloc,
            types,
            self.structs,
            self.generics,
            number,
            known[number],
        )
    }

    /// Notes that something has another type than is wanted. The texts are made only where the fault is kept.
    pub fn note_other_type(
        &self,
        alloc: Global,
        types: &Types,
        first: &mut First,
        at: Span,
        wanted: usize,
        found: usize,
    ) -> Result<(), AllocError>
        requires wanted { wanted < length types.now }
        requires found { found < length types.now }
        ensures { (s : Site) → IsHere self.now s → OnOk result (first.new ≡ kept first.old (other_type s at (type_at types.now wanted) (type_at types.now found))) }
    {
        if !first.takes(self.file, at, Code::WrongType) {
            return Ok(());
        }
        let mut args = Texts::new(alloc);
        args.push(self.printed(alloc, types, wanted)?)?;
        args.push(self.printed(alloc, types, found)?)?;
        first.note(self.file, at, Code::WrongType, args);
        Ok(())
    }
}
