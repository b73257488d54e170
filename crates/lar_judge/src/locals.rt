//! The locals in scope.
ghost use Rattle.std.specs.Prelude.{◌≡◌, ◌-◌, ◌≤◌, ◌∷◌, ◌++◌, [], List, length, take, OnOk, OnErr};
ghost use Rattle.type_table.specs.declared.row.Row.{Row};
ghost use Rattle.lar_rules.specs.Exprs.{local_named};
ghost use Rattle.lar_judge.specs.Locals.{locals_in, local_if, LocalWithin, LocalsWithin};

use crate::innermost::Innermost;
use lar_source::Text;
use std::alloc::{AllocError, Global};
use std::marker::Model;

/// A local that is in scope.
#[derive(Clone, Copy)]
pub struct Local<'a> {
    pub name: &'a Text,
    /// Its number among all locals of the function.
    pub number: usize,
    /// Its type as the number of a row, where there is no fault in the declaration.
    pub of: Option<usize>,
}

/// The locals in scope; the innermost is the last one.
#[derive(Drop)]
pub struct Locals<'a> {
    pub(crate) locals: Vec<Local<'a>>,
    hidden: Vec<Option<usize>>,
    innermost: Innermost,
    alloc: Global,
}

impl<'a> Model for Locals<'a> {
    ghost use Rattle.std.specs.BTreeMap.{get_by_text};
    ghost use Rattle.lar_judge.specs.Locals.{Scoped, IsIndexed};

    ghost Value = { Scoped };

    ghost view = { λ l. record { locals = l.locals } };

    ghost invariant = { λ l. IsIndexed l.locals.items l.hidden.items (get_by_text l.innermost.known) };
}

impl<'a> Locals<'a> {
    /// No locals.
    #[tactic(auto, using(crate::proofs::Indexed::none_yet))]
    pub fn new(alloc: Global) -> Locals<'a>
        ensures { result.locals.items ≡ [] }
    {
        Locals {
            locals: Vec::new(alloc),
            hidden: Vec::new(alloc),
            innermost: Innermost::new(alloc),
            alloc,
        }
    }

    /// How many are in scope.
    pub fn len(&self) -> usize
        ensures { result ≡ length self.now.locals.items }
    {
        self.locals.len()
    }

    /// A local that hides all others of its name. Without memory nothing changes.
    #[tactic(auto, using(crate::proofs::Indexed::declared))]
    pub fn declare(&mut self, local: Local<'a>) -> Result<(), AllocError>
        ensures ok { OnOk result (self.new.locals.items ≡ self.old.locals.items ++ local.entry ∷ []) }
        ensures err { OnErr result (self.new.locals.items ≡ self.old.locals.items) }
    {
        let name = local.name.as_str();
        let hidden = self.innermost.get(name);
        self.locals.reserve(1)?;
        self.hidden.reserve(1)?;
        self.innermost.put(self.alloc, name, self.locals.len())?;
        self.locals.push(local)?;
        self.hidden.push(hidden)?;
        Ok(())
    }

    fn leave_one(&mut self)
        ensures { self.new.locals.items ≡ take (length self.old.locals.items - 1) self.old.locals.items }
    {
        match self.locals.pop() {
            None => {}
            Some(local) => match self.hidden.pop() {
                None => {}
                Some(hidden) => self.innermost.restore(local.name.as_str(), hidden),
            },
        }
    }

    /// Leaves the outermost ones in scope, as many as these.
    pub fn leave(&mut self, count: usize)
        requires { count ≤ length self.old.locals.items }
        ensures { self.new.locals.items ≡ take count self.old.locals.items }
    {
        while self.locals.len() > count {
            self.leave_one();
        }
    }

    /// The innermost local of a name, by one look-up.
    #[tactic(auto, using(crate::proofs::Indexed::none_named, crate::proofs::Indexed::one_named, crate::proofs::Indexed::place_below, crate::proofs::Scopes::local_within))]
    pub fn find(&self, name: &Text) -> Option<Local<'a>>
        ensures within { (rows : List Row) → LocalsWithin rows self.now.locals.items → LocalWithin rows result }
        ensures is { (rows : List Row) → local_if rows result ≡ local_named name.now (locals_in rows self.now.locals.items) }
    {
        match self.innermost.get(name.as_str()) {
            None => None,
            Some(place) => Some(self.locals[place]),
        }
    }
}
