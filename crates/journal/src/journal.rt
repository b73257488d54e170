ghost use Rattle.std.specs.Prelude.{◌≡◌, List, []};
ghost use Rattle.std.specs.Borrow.{ftrue};
ghost use Rattle.journal.specs.Journal.{Call, coded_calls};

use std::marker::Model;

/// The calls so far, each with its answer, the latest last. Only contracts read it.
#[derive(Drop)]
pub struct Journal {
    pub ghost calls: { List Call } by { coded_calls },
}

impl Model for Journal {
    ghost also_owns = { λ _. ftrue };
}

/// Why nothing was found under a name.
#[derive(Clone, Copy, Debug, PartialEq, Eq)]
pub enum Missed {
    /// Nothing has the name.
    Absent,
    /// The call failed.
    Failed,
    /// There was no memory for the answer.
    Memory,
}

/// Whether a change was made.
#[derive(Clone, Copy, Debug, PartialEq, Eq)]
pub enum Done {
    /// It was made.
    Done,
    /// The call failed.
    Failed,
    /// There was no memory, and nothing changed.
    Memory,
}

/// A call with its answer.
#[derive(Clone, Copy, Drop)]
pub enum Note<'a> {
    /// What a name holds was asked for, so many bytes of it at most: these were found.
    Found(&'a str, u64, &'a [u8]),
    /// The same, and nothing was found.
    Missed(&'a str, u64, Missed),
    /// These bytes were to be put in the place of what a name holds.
    Stored(&'a str, &'a [u8], Done),
    /// A piece was to be appended. Where it was, this is the part that was taken.
    Put(&'a [u8], Done),
}

impl Journal {
    ghost use Rattle.journal.specs.Noted.{noted};

    /// No call yet.
    pub fn new() -> Journal
        ensures { result.calls ≡ [] }
    {
        Journal {}
    }

    /// The journal with this call behind the others.
    #[inline(always)]
    pub fn then(&self, _note: &Note<'_>) -> Journal
        ensures { result.calls ≡ noted self.now.calls _note.now }
    {
        Journal {}
    }
}
