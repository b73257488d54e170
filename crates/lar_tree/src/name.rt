ghost use Rattle.std.specs.Prelude.{◌≡◌, length, slice_get};
ghost use Rattle.std.specs.Option.{option_copied};
ghost use Rattle.lar_tree.specs.PlainLists.{names_of};

use crate::{Span, Text};
use sqlite_items::Items;

/// A name and where it stands.
#[derive(Drop)]
pub struct Name {
    pub text: Text,
    pub span: Span,
}

/// Names with `::` between them.
#[derive(Drop)]
pub struct Path {
    pub first: Name,
    pub more: Items<Segment>,
}

/// A further name of a path, behind its `::`.
#[derive(Drop)]
pub struct Segment {
    pub sep: Span,
    pub name: Name,
}

impl Path {
    /// How many names there are.
    pub fn len(&self) -> usize
        ensures { result ≡ length (names_of self.now) }
    {
        1 + self.more.as_slice().len()
    }

    /// The name at this place, from 0.
    pub fn get(&self, at: usize) -> Option<&Name>
        ensures { option_copied result ≡ slice_get (names_of self.now) at }
    {
        if at == 0 {
            return Some(&self.first);
        }
        match self.more.get(at - 1) {
            Some(segment) => Some(&segment.name),
            None => None,
        }
    }
}
