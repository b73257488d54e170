ghost use Rattle.std.specs.Prelude.{◌≡◌, ◌∷◌, ◌++◌, [], length, slice_get, OnOk, OnErr};
ghost use Rattle.std.specs.Option.{option_copied};
ghost use Rattle.lar_tree.specs.PlainLists.{values};

use crate::Span;
use sqlite_items::Items;
use std::alloc::{AllocError, Global};

/// One member or more, with commas between them.
#[derive(Drop)]
pub struct Commas<T> {
    pub first: T,
    pub more: Items<Member<T>>,
}

/// A further member, behind its comma.
#[derive(Drop)]
pub struct Member<T> {
    pub comma: Span,
    pub value: T,
}

impl<T> Commas<T> {
    /// A list of one member. It takes no memory yet.
    pub fn one(alloc: Global, first: T) -> Commas<T>
        ensures { result ≡ record { first = first; more = [] } }
    {
        Commas {
            first,
            more: Items::new(alloc),
        }
    }
}

impl<T> Commas<T> {
    /// How many members there are.
    pub fn len(&self) -> usize
        ensures { result ≡ length (values self.now) }
    {
        1 + self.more.as_slice().len()
    }

    /// The member at this place, from 0.
    pub fn get(&self, at: usize) -> Option<&T>
        ensures { option_copied result ≡ slice_get (values self.now) at }
    {
        if at == 0 {
            return Some(&self.first);
        }
        match self.more.get(at - 1) {
            Some(member) => Some(&member.value),
            None => None,
        }
    }
}

impl<T: Drop> Commas<T> {
    /// Puts a member at the end. Without memory nothing changes.
    pub fn push(&mut self, comma: Span, value: T) -> Result<(), AllocError>
        ensures ok { OnOk result (self.new ≡ record self.old { more = self.old.more ++ record { comma = comma; value = value } ∷ [] }) }
        ensures err { OnErr result (self.new ≡ self.old) }
    {
        self.more.push(Member { comma, value })
    }
}
