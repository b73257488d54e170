//! Instances without repeats, with an index.
use mono_items::Instance;
use std::alloc::{AllocError, Global};
use std::collections::BTreeMap;
use std::marker::Model;

/// The instances that are found so far, in the order in which they were found. One look-up finds the place of an instance.
#[derive(Drop)]
pub(crate) struct Found {
    items: Vec<Instance>,
    index: BTreeMap<(usize, usize), usize>,
}

impl Model for Found {
    ghost use Rattle.std.specs.Prelude.{List};
    ghost use Rattle.mono_items.specs.declared.items.Instance.{Instance};
    ghost use Rattle.mono_collect.specs.Places.{IsIndex};

    ghost Value = { List Instance };

    ghost view = { λ f. f.items.items };

    ghost invariant = { λ f. IsIndex f.items.items f.index };
}

impl Found {
    ghost use Rattle.std.specs.Prelude.{◌≡◌, ◌<◌, [], ◌∷◌, ◌++◌, length, slice_get, Some, OnOk, OnErr};
    ghost use Rattle.mono_collect.specs.Places.{IsPlace};

    pub(crate) fn new(alloc: Global) -> Self
        ensures { result ≡ [] }
    {
        Found {
            items: Vec::new(alloc),
            index: BTreeMap::new(alloc),
        }
    }

    pub(crate) fn len(&self) -> usize
        ensures { result ≡ length self.now }
    {
        self.items.len()
    }

    pub(crate) fn as_slice(&self) -> &[Instance]
        ensures { result.now ≡ self.now }
    {
        self.items.as_slice()
    }

    /// The instance at a place.
    pub(crate) fn at(&self, place: usize) -> Instance
        requires { place < length self.now }
        ensures { slice_get self.now place ≡ Some result }
    {
        self.items[place]
    }

    /// The place of an instance.
    pub(crate) fn find(&self, instance: Instance) -> Option<usize>
        ensures { IsPlace self.now instance result }
    {
        self.index
            .get(&(instance.function, instance.arguments))
            .copied()
    }

    /// Adds an instance.
    pub(crate) fn push(&mut self, instance: Instance) -> Result<(), AllocError>
        ensures ok { OnOk result (self.new ≡ self.old ++ instance ∷ []) }
        ensures err { OnErr result (self.new ≡ self.old) }
    {
        self.items.reserve(1)?;
        let place = self.items.len();
        self.index
            .insert((instance.function, instance.arguments), place)?;
        self.items.push(instance)?;
        Ok(())
    }
}
