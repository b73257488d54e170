//! Scopes by number.
ghost use Rattle.std.specs.Prelude.{◌≡◌, ℕ, ◌<◌, ◌++◌, ◌∷◌, [], List, length, map, string_bytes, Some, None, OnOk, OnErr, IfOk, IfSome};
ghost use Rattle.std.specs.Str.{IsAscii};
ghost use Rattle.lar_rules.specs.Printed.{joined};
ghost use Rattle.lar_names.specs.Scopes.{AreScopes, Grows, list_at, number_of, within};

use crate::Tables;
use lar_tree::{Name, Segment, Text};
use std::alloc::{AllocError, Global};
use std::marker::Model;

/// A module: the number of the scope in which it stands, and its name.
#[derive(Drop)]
struct Place {
    parent: usize,
    name: Text,
}

/// Scopes by number. A scope is a list of names of modules, each in the one before; no two are one, and the first is empty.
#[derive(Drop)]
pub struct Scopes {
    places: Vec<Place>,
    inner: Tables<usize>,
}

impl Model for Scopes {
    ghost use Rattle.std.specs.Prelude.{List, ℕ};
    ghost use Rattle.lar_names.specs.ScopeLists.{lists, AreInner};

    ghost Value = { List (List (List ℕ)) };

    ghost view = { λ s. lists s.places.items };

    ghost invariant = { λ s. AreInner (lists s.places.items) s.inner.maps.items };
}

impl Scopes {
    /// The empty scope alone.
    pub fn new(alloc: Global) -> Result<Self, AllocError>
        ensures { IfOk result (λ s. s ≡ [] ∷ []) }
    {
        let mut inner = Tables::new(alloc);
        inner.open(alloc)?;
        Ok(Scopes {
            places: Vec::new(alloc),
            inner,
        })
    }

    /// How many there are.
    pub fn len(&self) -> usize
        ensures len { result ≡ length self.now }
        ensures scopes { AreScopes self.now }
    {
        self.places.len() + 1
    }

    /// The scope of a module in a scope.
    pub fn find(&self, parent: usize, name: &str) -> Option<usize>
        requires { parent < length self.now }
        ensures number { result ≡ number_of (within (list_at self.now parent) name.now) self.now }
        ensures scopes { AreScopes self.now }
    {
        self.inner.get(parent, name)
    }

    fn push(&mut self, alloc: Global, parent: usize, name: &str) -> Result<(), AllocError>
        requires parent { parent < length self.old }
        requires ascii { IsAscii name.now }
        requires new { number_of (within (list_at self.old parent) name.now) self.old ≡ None }
        ensures ok { OnOk result (self.new ≡ self.old ++ within (list_at self.old parent) name.now ∷ []) }
        ensures err { OnErr result (self.new ≡ self.old) }
    {
        let number = self.len();
        self.places.reserve(1)?;
        let place = Place {
            parent,
            name: Text::copied(alloc, name)?,
        };
        self.inner.open(alloc)?;
        self.inner.put(alloc, parent, name, number)?;
        self.places.push(place)?;
        Ok(())
    }

    /// The scope of a module in a scope, which is added where it is new.
    pub fn enter(&mut self, alloc: Global, parent: usize, name: &str) -> Result<usize, AllocError>
        requires parent { parent < length self.old }
        requires ascii { IsAscii name.now }
        ensures grown { Grows self.old self.new }
        ensures number { IfOk result (λ n. (n < length self.new) × (list_at self.new n ≡ within (list_at self.old parent) name.now)) }
    {
        match self.find(parent, name) {
            Some(number) => return Ok(number),
            None => {}
        }
        let number = self.len();
        self.push(alloc, parent, name)?;
        Ok(number)
    }

    /// The scope of these modules, each in the one before, from a file's module on.
    pub fn walk(&self, first: &Name, more: &[Segment]) -> Option<usize>
        ensures number { result ≡ number_of (first.now.text ∷ map (λ s. (s.name).text) more.now) self.now }
        ensures scopes { AreScopes self.now }
    {
        let _ = &self.places;
        let mut scope = match self.find(0, first.text.as_str()) {
            Some(scope) => scope,
            None => return None,
        };
        for segment in more {
            match self.find(scope, segment.name.text.as_str()) {
                Some(inner) => scope = inner,
                None => return None,
            }
        }
        Some(scope)
    }

    /// Puts the names of the modules of a scope, with `::` between them. It calls itself once for each module above.
    fn put_path(&self, scope: usize, text: &mut String) -> Result<(), AllocError>
        ensures bytes { OnOk result (string_bytes text.new ≡ string_bytes text.old ++ joined (list_at self.now scope)) }
        ensures ascii { OnOk result (IsAscii (string_bytes text.old) → IsAscii (string_bytes text.new)) }
    {
        if scope == 0 || scope > self.places.len() {
            return Ok(());
        }
        let place = &self.places[scope - 1];
        if place.parent == 0 || place.parent >= scope {
            text.push_str(place.name.as_str())?;
            return Ok(());
        }
        self.put_path(place.parent, text)?;
        text.push_str("::")?;
        text.push_str(place.name.as_str())?;
        Ok(())
    }

    /// The names of the modules of a scope, with `::` between them. A number that is no scope's has none.
    pub fn path(&self, alloc: Global, scope: usize) -> Result<Text, AllocError>
        ensures { IfOk result (λ text. text ≡ joined (list_at self.now scope)) }
    {
        let mut text = String::new(alloc);
        self.put_path(scope, &mut text)?;
        Text::from_string(alloc, text)
    }
}
