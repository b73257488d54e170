//! Which local a name means: for each name in scope, where its innermost local stands.
ghost use Rattle.std.specs.Prelude.{◌≡◌, ℕ, List, cond, Some, None, IsSome, OnOk, OnErr};
ghost use Rattle.std.specs.BTreeMap.{get_by_text};
ghost use Rattle.std.specs.Str.{bytes_eq};

use std::alloc::{AllocError, Global};
use std::collections::BTreeMap;

/// Where the innermost local of each name stands among the locals in scope.
#[derive(Drop)]
pub(crate) struct Innermost {
    pub(crate) known: BTreeMap<String, usize>,
}

impl Innermost {
    pub(crate) fn new(alloc: Global) -> Innermost
        ensures { (q : List ℕ) → get_by_text result.known q ≡ None }
    {
        Innermost {
            known: BTreeMap::new(alloc),
        }
    }

    /// Where the innermost local of a name stands.
    pub(crate) fn get(&self, name: &str) -> Option<usize>
        ensures { result ≡ get_by_text self.now.known name.now }
    {
        self.known.get(name).copied()
    }

    /// From now on the innermost local of the name stands there. Without memory no name changes.
    pub(crate) fn put(&mut self, alloc: Global, name: &str, place: usize) -> Result<(), AllocError>
        ensures ok { OnOk result ((q : List ℕ) → get_by_text self.new.known q ≡ cond (bytes_eq name.now q) (Some place) (get_by_text self.old.known q)) }
        ensures err { OnErr result ((q : List ℕ) → get_by_text self.new.known q ≡ get_by_text self.old.known q) }
    {
        let key = name.to_string(alloc)?;
        self.known.insert(key, place)?;
        Ok(())
    }

    /// The innermost local of the name is gone; the one that it hid stands there, if it hid one.
    pub(crate) fn restore(&mut self, name: &str, hidden: Option<usize>)
        requires { IsSome (get_by_text self.old.known name.now) }
        ensures { (q : List ℕ) → get_by_text self.new.known q ≡ cond (bytes_eq name.now q) hidden (get_by_text self.old.known q) }
    {
        match hidden {
            None => {
                self.known.remove(name);
            }
            Some(place) => {
                if let Some(known) = self.known.get_mut(name) {
                    *known = place;
                }
            }
        }
    }
}
