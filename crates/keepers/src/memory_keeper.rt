//! A keeper in memory, some calls on which are to fail.

ghost use Rattle.std.specs.Prelude.{◌≡◌, ◌≢◌, ◌↔◌, ◌⊎◌, Ok, Some, None, Contains, IsTrue, IfOk, [], map};
ghost use Rattle.std.specs.Option.{option_map};
ghost use Rattle.std.specs.FinMap.{get};
ghost use Rattle.files.specs.FilesState.{IsFound, Leaves};
ghost use Rattle.files.specs.MemoryFilesState.{are_distinct, held_by};
ghost use Rattle.keepers.specs.KeeperState as spec;
ghost use Rattle.keepers.specs.KeeperState.{IsListed, LoadStep, NamesStep, RemoveStep, SaveStep};
ghost use Rattle.keepers.specs.MemoryKeeperState.{CountsCall, keeper_told, left_by};

use crate::held_names::HeldNames;
use crate::keeper_journal::KeeperJournal;
use crate::noting::{with_load, with_names, with_remove, with_save};
use crate::{Keeper, Loaded, Named, Saved};
use lar_bytes::Bytes;
use lar_source::File;
use outside::FailingCalls;
use std::alloc::{AllocError, Global};
use std::marker::Model;

/// A keeper in memory. The calls on it that are to fail are told by their numbers. A call that fails changes nothing that is held,
/// but for a failed save once [`MemoryKeeper::leaving`] was called.
#[derive(Drop)]
pub struct MemoryKeeper {
    held: HeldNames,
    calls: FailingCalls,
    leaving: Option<u32>,
    journal: KeeperJournal,
}

impl Model for MemoryKeeper {
    ghost use Rattle.keepers.specs.MemoryKeeperState.{MemoryKeeperState, coded_keeper};

    ghost Value = { MemoryKeeperState };

    ghost coded = { coded_keeper };

    ghost view = { λ k. record { held = k.held; calls = k.calls; leaving = k.leaving; made = k.journal.calls } };
}

impl MemoryKeeper {
    /// A keeper that holds these. The calls with these numbers, from 0, are to fail.
    pub fn new(
        alloc: Global,
        contents: &[File],
        failing: &[u64],
    ) -> Result<MemoryKeeper, AllocError>
        requires distinct { IsTrue (are_distinct (map (λ file. file.name) contents.now)) }
        ensures { IfOk result (λ keeper. keeper ≡ record {
          held = held_by contents.now;
          calls = record { failing = failing.now; calls = 0; faults = 0 };
          leaving = None;
          made = [];
        }) }
    {
        let mut held = HeldNames::new(alloc);
        for file in contents {
            held.set(alloc, file.name.as_str(), file.bytes.as_slice())?;
        }
        Ok(MemoryKeeper {
            held,
            calls: FailingCalls::new(alloc, failing)?,
            leaving: None,
            journal: KeeperJournal::new(),
        })
    }

    /// What a name holds.
    pub fn held(&self, name: &str) -> Option<&[u8]>
        ensures { option_map (λ bytes. bytes.now) result ≡ get self.now.held name.now }
    {
        self.held.get(name)
    }

    /// From now on a failed save leaves the first `bytes` bytes of the new ones, or all of them where they are fewer.
    pub fn leaving(&mut self, bytes: u32)
        ensures { self.new ≡ record self.old { leaving = Some bytes } }
    {
        self.leaving = Some(bytes);
    }
}

// What a load finds that does not fail.
fn look(held: &HeldNames, alloc: Global, name: &str, most: u64) -> Result<Loaded, AllocError>
    ensures found { IsFound (Some held.now) name.now most (spec.found_of result) }
    ensures fine { result ≢ Ok Loaded.Failed }
{
    match held.get(name) {
        Some(bytes) => {
            let len = most.min(bytes.len() as u64) as usize;
            Ok(Loaded::Bytes(Bytes::copied(alloc, &bytes[..len])?))
        }
        None => Ok(Loaded::Absent),
    }
}

// What a save does that does not fail.
fn put(held: &mut HeldNames, alloc: Global, name: &str, bytes: &[u8]) -> Saved
    ensures leaves { Leaves name.now bytes.now (Some held.old) (spec.done_of result) (Some held.new) }
    ensures fine { result ≢ Saved.Failed }
{
    match held.set(alloc, name, bytes) {
        Ok(()) => Saved::Done,
        Err(_) => Saved::Memory,
    }
}

// What a save does that fails. Without memory for what it leaves it changes nothing.
fn leave(
    held: &mut HeldNames,
    alloc: Global,
    leaving: Option<u32>,
    name: &str,
    bytes: &[u8],
) -> Saved
    ensures left { result ≡ Saved.Failed → held.new ≡ left_by leaving name.now bytes.now held.old }
    ensures leaves { Leaves name.now bytes.now (Some held.old) (spec.done_of result) (Some held.new) }
    ensures fails { result ≢ Saved.Done }
{
    match leaving {
        None => Saved::Failed,
        Some(most) => {
            let len = (most as usize).min(bytes.len());
            match held.set(alloc, name, &bytes[..len]) {
                Ok(()) => Saved::Failed,
                Err(_) => Saved::Memory,
            }
        }
    }
}

// The names of a listing that does not fail.
fn list(held: &HeldNames, alloc: Global) -> Result<Named, AllocError>
    ensures listed { IsListed (Some held.now) (spec.listing_of result) }
    ensures fine { result ≢ Ok Named.Failed }
{
    Ok(Named::Names(held.names(alloc)?))
}

impl Keeper for MemoryKeeper {
    ghost use Rattle.keepers.specs.MemoryKeeperState.{keeper_told};

    ghost told = { λ keeper. keeper_told keeper };

    fn load(&mut self, alloc: Global, name: &str, most: u64) -> Result<Loaded, AllocError>
        ensures step { LoadStep (keeper_told self.old) name.now most (spec.found_of result) (keeper_told self.new) }
        ensures fails { (result ≡ Ok Loaded.Failed) ↔ Contains self.old.calls.failing self.old.calls.calls }
        ensures counted { CountsCall self.old.calls self.new.calls }
        ensures leaving { self.new.leaving ≡ self.old.leaving }
    {
        let answer = if self.calls.next_fails() {
            Ok(Loaded::Failed)
        } else {
            look(&self.held, alloc, name, most)
        };
        self.journal = with_load(&self.journal, name, most, &answer);
        answer
    }

    fn save(&mut self, alloc: Global, name: &str, bytes: &[u8]) -> Saved
        ensures step { SaveStep (keeper_told self.old) name.now bytes.now (spec.done_of result) (keeper_told self.new) }
        ensures fails { result ≡ Saved.Failed → Contains self.old.calls.failing self.old.calls.calls }
        ensures told { Contains self.old.calls.failing self.old.calls.calls → (result ≡ Saved.Failed) ⊎ (result ≡ Saved.Memory) }
        ensures counted { CountsCall self.old.calls self.new.calls }
        ensures left { result ≡ Saved.Failed → self.new.held ≡ left_by self.old.leaving name.now bytes.now self.old.held }
        ensures leaving { self.new.leaving ≡ self.old.leaving }
    {
        let answer = if self.calls.next_fails() {
            leave(&mut self.held, alloc, self.leaving, name, bytes)
        } else {
            put(&mut self.held, alloc, name, bytes)
        };
        self.journal = with_save(&self.journal, name, bytes, answer);
        answer
    }

    fn remove(&mut self, name: &str) -> Saved
        ensures step { RemoveStep (keeper_told self.old) name.now (spec.done_of result) (keeper_told self.new) }
        ensures fails { (result ≡ Saved.Failed) ↔ Contains self.old.calls.failing self.old.calls.calls }
        ensures counted { CountsCall self.old.calls self.new.calls }
        ensures same { result ≡ Saved.Failed → self.new.held ≡ self.old.held }
        ensures leaving { self.new.leaving ≡ self.old.leaving }
    {
        let answer = if self.calls.next_fails() {
            Saved::Failed
        } else {
            self.held.remove(name);
            Saved::Done
        };
        self.journal = with_remove(&self.journal, name, answer);
        answer
    }

    fn names(&mut self, alloc: Global) -> Result<Named, AllocError>
        ensures step { NamesStep (keeper_told self.old) (spec.listing_of result) (keeper_told self.new) }
        ensures fails { (result ≡ Ok Named.Failed) ↔ Contains self.old.calls.failing self.old.calls.calls }
        ensures counted { CountsCall self.old.calls self.new.calls }
        ensures leaving { self.new.leaving ≡ self.old.leaving }
    {
        let answer = if self.calls.next_fails() {
            Ok(Named::Failed)
        } else {
            list(&self.held, alloc)
        };
        self.journal = with_names(&self.journal, &answer);
        answer
    }
}
