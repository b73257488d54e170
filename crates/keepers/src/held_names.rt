//! Names that hold bytes, in memory. They are in byte order, can be listed, and can be removed.

ghost use Rattle.std.specs.Prelude.{◌≡◌, OnOk, OnErr, IfOk};
ghost use Rattle.std.specs.BTreeMap as tree;
ghost use Rattle.std.specs.BTreeMap.{IsOrdered};
ghost use Rattle.std.specs.FinMap as map;
ghost use Rattle.std.specs.Option.{option_map};
ghost use Rattle.std.specs.String.{string_cmp};
ghost use Rattle.keepers.specs.KeeperNoted.{bytes_of_all};
ghost use Rattle.keepers.specs.KeeperState.{AreInOrder};

use std::alloc::{AllocError, Global};
use std::collections::BTreeMap;
use std::marker::Model;

/// A map from names to bytes. Each call but `names` takes as long as the names are deep in an ordered map.
#[derive(Drop)]
pub(crate) struct HeldNames {
    names: BTreeMap<String, Vec<u8>>,
}

impl Model for HeldNames {
    ghost use Rattle.outside.specs.Entries.{held_in};
    ghost use Rattle.outside.specs.Held.{Held, coded_held};

    ghost Value = { Held };

    ghost coded = { coded_held };

    ghost view = { λ h. held_in h.names.entries };
}

impl HeldNames {
    /// No name. It takes no memory yet.
    pub(crate) fn new(alloc: Global) -> HeldNames
        ensures { result ≡ map.empty }
    {
        HeldNames {
            names: BTreeMap::new(alloc),
        }
    }

    /// What a name holds.
    pub(crate) fn get(&self, name: &str) -> Option<&[u8]>
        ensures { option_map (λ bytes. bytes.now) result ≡ map.get self.now name.now }
    {
        match self.names.get(name) {
            Some(bytes) => Some(bytes.as_slice()),
            None => None,
        }
    }

    /// Puts bytes in the place of what the name holds. Without memory nothing changes.
    pub(crate) fn set(&mut self, alloc: Global, name: &str, bytes: &[u8]) -> Result<(), AllocError>
        ensures ok { OnOk result (self.new ≡ map.insert self.old name.now bytes.now) }
        ensures err { OnErr result (self.new ≡ self.old) }
    {
        let name = name.to_string(alloc)?;
        let bytes = Vec::from_slice(alloc, bytes)?;
        self.names.insert(name, bytes)?;
        Ok(())
    }

    /// Removes a name, where it is there.
    pub(crate) fn remove(&mut self, name: &str)
        ensures { self.new ≡ map.remove self.old name.now }
    {
        self.names.remove(name);
    }

    /// All names, in byte order.
    pub(crate) fn names(&self, alloc: Global) -> Result<Vec<String>, AllocError>
        ensures names { IfOk result (λ names. bytes_of_all names.items ≡ map.keys self.now) }
        ensures ordered { IfOk result (λ names. AreInOrder (bytes_of_all names.items)) }
    {
        keys_of(alloc, &self.names)
    }
}

// A copy of the keys, which are in order.
fn keys_of(alloc: Global, names: &BTreeMap<String, Vec<u8>>) -> Result<Vec<String>, AllocError>
    ensures keys { IfOk result (λ keys. bytes_of_all keys.items ≡ bytes_of_all (tree.keys names.now)) }
    ensures ordered { IsOrdered string_cmp names.now }
{
    let mut keys = Vec::with_capacity(alloc, names.len())?;
    for name in names.keys() {
        keys.push(name.clone()?)?;
    }
    Ok(keys)
}
