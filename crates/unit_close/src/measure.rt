//! How many words values have, and where their parts lie.
ghost use Rattle.std.specs.Prelude.{◌≡◌, ◌<◌, ◌≤◌, ◌++◌, length, map, take, IfOk, OnOk};
ghost use Rattle.std.specs.List.{AllByRecursion};
ghost use Rattle.type_table.specs.Rows.{type_at};
ghost use Rattle.lar_typed.specs.SameType.{list_of};
ghost use Rattle.type_table.specs.Substitution.{count};
ghost use Rattle.unit_input.specs.Widths.{cut};
ghost use Rattle.closed_input.specs.Places.{first_parts};
ghost use Rattle.unit_close.specs.Measures.{IsMeasure, IsRow, IsPlace, words_at, list_widths, words_until};

use std::alloc::{AllocError, Global};
use type_table::{Row, StructDecl, Types};
use type_widths::value;

/// Types and structs, with the form of each type's width.
#[derive(Drop)]
pub(crate) struct Measure<'a> {
    pub(crate) types: &'a Types,
    pub(crate) structs: &'a [StructDecl],
    /// The form of each row.
    pub(crate) forms: &'a [Vec<u16>],
}

impl<'a> Measure<'a> {
    /// How many words the type of a row has, where the generics have these; 256 stands for all above 255.
    pub(crate) fn width(&self, widths: &[u16], row: usize) -> u16
        requires measure { IsMeasure self.now }
        requires few { length widths.now ≤ 16 }
        requires row { IsRow self.now.types.now row }
        ensures { result ≡ cut (words_at self.now.types.now self.now.structs.now widths.now (type_at self.now.types.now row)) }
    {
        value(&self.forms[row], widths)
    }

    /// How many words the first k members of a list have together.
    fn first_words(&self, widths: &[u16], list: usize, k: usize) -> u16
        requires measure { IsMeasure self.now }
        requires few { length widths.now ≤ 16 }
        requires list { IsRow self.now.types.now list }
        ensures { result ≡ cut (words_at self.now.types.now self.now.structs.now widths.now (first_parts k (type_at self.now.types.now list))) }
    {
        if k == 0 {
            return 0;
        }
        match self.types.row(list) {
            Row::More(first, others) => {
                let rest = self.first_words(widths, others, k - 1);
                let here = self.width(widths, first);
                here.saturating_add(rest).min(256)
            }
            _ => 0,
        }
    }

    /// Appends how many words each member of a list has.
    pub(crate) fn put_widths(
        &self,
        widths: &[u16],
        list: usize,
        out: &mut Vec<u16>,
    ) -> Result<(), AllocError>
        requires measure { IsMeasure self.now }
        requires few { length widths.now ≤ 16 }
        requires list { IsRow self.now.types.now list }
        ensures { OnOk result (out.new.items ≡ out.old.items ++ list_widths self.now.types.now self.now.structs.now widths.now (type_at self.now.types.now list)) }
    {
        match self.types.row(list) {
            Row::More(first, others) => {
                out.push(self.width(widths, first))?;
                self.put_widths(widths, others, out)
            }
            _ => Ok(()),
        }
    }

    /// How many words each member of a list has.
    pub(crate) fn list_widths(
        &self,
        alloc: Global,
        widths: &[u16],
        list: usize,
    ) -> Result<Vec<u16>, AllocError>
        requires measure { IsMeasure self.now }
        requires few { length widths.now ≤ 16 }
        requires list { IsRow self.now.types.now list }
        ensures { IfOk result (λ out. out.items ≡ list_widths self.now.types.now self.now.structs.now widths.now (type_at self.now.types.now list)) }
    {
        let mut out = Vec::new(alloc);
        self.put_widths(widths, list, &mut out)?;
        Ok(out)
    }

    /// How many words the first of these locals have together, so many of them.
    pub(crate) fn locals_width(&self, widths: &[u16], locals: &[usize], count: usize) -> u16
        requires measure { IsMeasure self.now }
        requires few { length widths.now ≤ 16 }
        requires rows { AllByRecursion (IsRow self.now.types.now) locals.now }
        requires count { count ≤ length locals.now }
        ensures { result ≡ cut (words_at self.now.types.now self.now.structs.now widths.now (list_of (map (type_at self.now.types.now) (take count locals.now)))) }
    {
        let mut total = 0u16;
        for i in 0..count {
            let width = self.width(widths, locals[i]);
            total = total.saturating_add(width).min(256);
        }
        total
    }

    /// How many words stand before field k of a struct with the arguments in a list.
    fn field_words(
        &self,
        alloc: Global,
        widths: &[u16],
        decl: &StructDecl,
        list: usize,
        k: usize,
    ) -> Result<u16, AllocError>
        requires measure { IsMeasure self.now }
        requires few { length widths.now ≤ 16 }
        requires list { IsRow self.now.types.now list }
        requires arguments { count (type_at self.now.types.now list) ≤ 16 }
        requires fields { IsRow self.now.types.now decl.now.fields }
        ensures { IfOk result (λ w. w ≡ cut (words_at self.now.types.now self.now.structs.now (list_widths self.now.types.now self.now.structs.now widths.now (type_at self.now.types.now list)) (first_parts k (type_at self.now.types.now decl.now.fields)))) }
    {
        let inner = self.list_widths(alloc, widths, list)?;
        Ok(self.first_words(inner.as_slice(), decl.fields, k))
    }

    /// How many words stand before part k of a value with the type of a row; 256 stands for all above 255.
    pub(crate) fn until(
        &self,
        alloc: Global,
        widths: &[u16],
        row: usize,
        k: usize,
    ) -> Result<u16, AllocError>
        requires measure { IsMeasure self.now }
        requires few { length widths.now ≤ 16 }
        requires place { IsPlace self.now.types.now row }
        ensures { IfOk result (λ w. w ≡ cut (words_until self.now.types.now self.now.structs.now widths.now (type_at self.now.types.now row) k)) }
    {
        match self.types.row(row) {
            Row::Tuple(list) => Ok(self.first_words(widths, list, k)),
            Row::Struct(number, list) => match self.structs.get(number) {
                None => Ok(0),
                Some(decl) => self.field_words(alloc, widths, decl, list, k),
            },
            _ => Ok(0),
        }
    }
}
