ghost use Rattle.std.specs.Prelude.{◌≡◌, ◌≢◌, ◌↔◌, Ok, Some, Contains, IsTrue, IfOk, [], map};
ghost use Rattle.std.specs.Option.{option_map};
ghost use Rattle.std.specs.FinMap.{get};
ghost use Rattle.outside.specs.CallsState.{after_call};
ghost use Rattle.files.specs.FilesState.{IsFound, ReadStep, WriteStep};
ghost use Rattle.files.specs.FilesState as spec;
ghost use Rattle.files.specs.MemoryFilesState.{are_distinct, files_told, held_by, is_failed_read, is_failed_write};

use crate::noting::{with_read, with_write};
use crate::{Files, Read, Wrote};
use journal::Journal;
use lar_bytes::Bytes;
use lar_source::File;
use outside::{FailingCalls, HeldBytes};
use std::alloc::{AllocError, Global};
use std::marker::Model;

/// Files in memory, some calls on which are to fail. A call that fails changes nothing that is held.
#[derive(Drop)]
pub struct MemoryFiles {
    held: HeldBytes,
    calls: FailingCalls,
    journal: Journal,
}

impl Model for MemoryFiles {
    ghost use Rattle.files.specs.MemoryFilesState.{MemoryFilesState, coded_files};

    ghost Value = { MemoryFilesState };

    ghost coded = { coded_files };

    ghost view = { λ f. record { held = f.held; calls = f.calls; made = f.journal.calls } };
}

impl MemoryFiles {
    /// These files. The calls with these numbers, from 0, are to fail.
    pub fn new(alloc: Global, contents: &[File], failing: &[u64]) -> Result<MemoryFiles, AllocError>
        requires distinct { IsTrue (are_distinct (map (λ file. file.name) contents.now)) }
        ensures { IfOk result (λ files. files ≡ record { held = held_by contents.now; calls = record { failing = failing.now; calls = 0; faults = 0 }; made = [] }) }
    {
        let mut held = HeldBytes::new(alloc);
        for file in contents {
            held.set(alloc, file.name.as_str(), file.bytes.as_slice())?;
        }
        Ok(MemoryFiles {
            held,
            calls: FailingCalls::new(alloc, failing)?,
            journal: Journal::new(),
        })
    }

    /// What a name holds.
    pub fn held(&self, name: &str) -> Option<&[u8]>
        ensures { option_map (λ bytes. bytes.now) result ≡ get self.now.held name.now }
    {
        self.held.get(name)
    }
}

// What a read finds that does not fail.
fn look(held: &HeldBytes, alloc: Global, name: &str, most: u64) -> Result<Read, AllocError>
    ensures found { IsFound (Some held.now) name.now most (spec.found_of result) }
    ensures fine { result ≢ Ok Read.Failed }
{
    match held.get(name) {
        Some(bytes) => {
            let len = most.min(bytes.len() as u64) as usize;
            Ok(Read::Bytes(Bytes::copied(alloc, &bytes[..len])?))
        }
        None => Ok(Read::Absent),
    }
}

impl Files for MemoryFiles {
    ghost use Rattle.files.specs.MemoryFilesState.{files_told};

    ghost told = { λ files. files_told files };

    fn read(&mut self, alloc: Global, name: &str, most: u64) -> Result<Read, AllocError>
        ensures step { ReadStep (files_told self.old) name.now most (spec.found_of result) (files_told self.new) }
        ensures fails { (result ≡ Ok Read.Failed) ↔ Contains self.old.calls.failing self.old.calls.calls }
        ensures counted { self.new.calls ≡ after_call (is_failed_read (spec.found_of result)) self.old.calls }
    {
        let answer = if self.calls.next_fails() {
            Ok(Read::Failed)
        } else {
            look(&self.held, alloc, name, most)
        };
        self.journal = with_read(&self.journal, name, most, &answer);
        answer
    }

    fn write(&mut self, alloc: Global, name: &str, bytes: &[u8]) -> Wrote
        ensures step { WriteStep (files_told self.old) name.now bytes.now (spec.done_of result) (files_told self.new) }
        ensures fails { (result ≡ Wrote.Failed) ↔ Contains self.old.calls.failing self.old.calls.calls }
        ensures counted { self.new.calls ≡ after_call (is_failed_write (spec.done_of result)) self.old.calls }
        ensures same { result ≡ Wrote.Failed → self.new.held ≡ self.old.held }
    {
        let answer = if self.calls.next_fails() {
            Wrote::Failed
        } else {
            match self.held.set(alloc, name, bytes) {
                Ok(()) => Wrote::Done,
                Err(_) => Wrote::Memory,
            }
        };
        self.journal = with_write(&self.journal, name, bytes, answer);
        answer
    }
}
