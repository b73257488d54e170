//! Tables of names, one for each scope.
ghost use Rattle.std.specs.Prelude.{◌≡◌, ℕ, suc, ◌<◌, List, length, None, OnOk, OnErr};
ghost use Rattle.lar_names.specs.Tables.{look, IsPut};

use std::alloc::{AllocError, Global};
use std::collections::BTreeMap;

/// For each scope by its number, what each name has there.
#[derive(Drop)]
pub struct Tables<V> {
    maps: Vec<BTreeMap<String, V>>,
}

impl<V: Copy + Drop> Tables<V> {
    /// No scope yet.
    pub fn new(alloc: Global) -> Self
        ensures none { length result.maps.items ≡ 0 }
        ensures look { (s : ℕ) (q : List ℕ) → look result.maps.items s q ≡ None }
    {
        Tables {
            maps: Vec::new(alloc),
        }
    }

    /// What a name has in the table of a scope.
    pub fn get(&self, scope: usize, name: &str) -> Option<V>
        ensures { result ≡ look self.now.maps.items scope name.now }
    {
        match self.maps.get(scope) {
            Some(map) => map.get(name).copied(),
            None => None,
        }
    }

    /// One scope more, without names. Without memory nothing changes.
    pub fn open(&mut self, alloc: Global) -> Result<(), AllocError>
        ensures count { OnOk result (length self.new.maps.items ≡ suc (length self.old.maps.items)) }
        ensures look { (s : ℕ) (q : List ℕ) → look self.new.maps.items s q ≡ look self.old.maps.items s q }
        ensures err { OnErr result (self.new.maps.items ≡ self.old.maps.items) }
    {
        self.maps.push(BTreeMap::new(alloc))?;
        Ok(())
    }

    /// Puts a value at a name of a scope. Without memory no name changes.
    pub fn put(
        &mut self,
        alloc: Global,
        scope: usize,
        name: &str,
        value: V,
    ) -> Result<(), AllocError>
        requires { scope < length self.old.maps.items }
        ensures count { length self.new.maps.items ≡ length self.old.maps.items }
        ensures ok { OnOk result (IsPut self.old.maps.items self.new.maps.items scope name.now value) }
        ensures err { OnErr result ((s : ℕ) (q : List ℕ) → look self.new.maps.items s q ≡ look self.old.maps.items s q) }
    {
        let key = name.to_string(alloc)?;
        let map = &mut self.maps[scope];
        map.insert(key, value)?;
        Ok(())
    }
}
