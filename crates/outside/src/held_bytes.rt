ghost use Rattle.std.specs.Prelude.{◌≡◌, OnOk, OnErr};
ghost use Rattle.std.specs.Option.{option_map};
ghost use Rattle.std.specs.FinMap as map;
ghost use Rattle.outside.specs.Entries.{held_in};

use std::alloc::{AllocError, Global};
use std::collections::BTreeMap;
use std::marker::Model;

/// A map from names to bytes in memory. A look-up and a change take as long as the names are deep in an ordered map.
#[derive(Drop)]
pub struct HeldBytes {
    names: BTreeMap<String, Vec<u8>>,
}

impl Model for HeldBytes {
    ghost use Rattle.outside.specs.Held.{Held, coded_held};
    ghost use Rattle.outside.specs.Entries.{held_in};

    ghost Value = { Held };

    ghost coded = { coded_held };

    ghost view = { λ h. held_in h.names.entries };
}

impl HeldBytes {
    /// No name. It takes no memory yet.
    pub fn new(alloc: Global) -> HeldBytes
        ensures { result ≡ map.empty }
    {
        HeldBytes {
            names: BTreeMap::new(alloc),
        }
    }

    /// What a name holds.
    pub fn get(&self, name: &str) -> Option<&[u8]>
        ensures { option_map (λ bytes. bytes.now) result ≡ map.get self.now name.now }
    {
        match self.names.get(name) {
            Some(bytes) => Some(bytes.as_slice()),
            None => None,
        }
    }

    /// Puts bytes in the place of what the name holds. Without memory nothing changes.
    pub fn set(&mut self, alloc: Global, name: &str, bytes: &[u8]) -> Result<(), AllocError>
        ensures ok { OnOk result (self.new ≡ map.insert self.old name.now bytes.now) }
        ensures err { OnErr result (self.new ≡ self.old) }
    {
        let name = name.to_string(alloc)?;
        let bytes = Vec::from_slice(alloc, bytes)?;
        self.names.insert(name, bytes)?;
        Ok(())
    }
}
