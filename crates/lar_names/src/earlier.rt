//! Names of the items of a module so far.
ghost use Rattle.std.specs.Prelude.{◌≡◌, ℕ, ◌||◌, List, false, OnOk};
ghost use Rattle.std.specs.Str.{bytes_eq};
ghost use Rattle.lar_names.specs.EarlierNames.{is_earlier};

use std::alloc::{AllocError, Global};
use std::collections::BTreeMap;

/// Names of the items of a module so far.
#[derive(Drop)]
pub struct Earlier<'a> {
    names: BTreeMap<&'a str, ()>,
}

impl<'a> Earlier<'a> {
    /// No name yet.
    pub fn new(alloc: Global) -> Self
        ensures { (q : List ℕ) → is_earlier result q ≡ false }
    {
        Earlier {
            names: BTreeMap::new(alloc),
        }
    }

    /// Whether a name is among them.
    pub fn has(&self, name: &'a str) -> bool
        ensures { result ≡ is_earlier self.now name.now }
    {
        self.names.get(&name).is_some()
    }

    /// One name more.
    pub fn add(&mut self, name: &'a str) -> Result<(), AllocError>
        ensures { OnOk result ((q : List ℕ) → is_earlier self.new q ≡ (bytes_eq q name.now || is_earlier self.old q)) }
    {
        self.names.insert(name, ())?;
        Ok(())
    }
}
