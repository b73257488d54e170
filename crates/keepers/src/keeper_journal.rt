//! The journal of a keeper: each call on it with its answer, for contracts alone. It takes no memory, and its methods do nothing
//! when the program runs.

ghost use Rattle.std.specs.Prelude.{◌≡◌, List, []};
ghost use Rattle.std.specs.Borrow.{ftrue};
ghost use Rattle.keepers.specs.KeeperCalls.{KeeperCall, coded_calls};

use journal::{Done, Missed};
use std::marker::Model;

/// The calls so far, each with its answer, the latest last. Only contracts read it.
#[derive(Drop)]
pub(crate) struct KeeperJournal {
    pub(crate) ghost calls: { List KeeperCall } by { coded_calls },
}

impl Model for KeeperJournal {
    ghost also_owns = { λ _. ftrue };
}

/// A call with its answer.
#[derive(Clone, Copy, Drop)]
pub(crate) enum KeeperNote<'a> {
    /// What a name holds was asked for, so many bytes of it at most: these were found.
    Found(&'a str, u64, &'a [u8]),
    /// The same, and nothing was found.
    Missed(&'a str, u64, Missed),
    /// These bytes were to be put in the place of what a name holds.
    Saved(&'a str, &'a [u8], Done),
    /// A name was to be removed.
    Removed(&'a str, Done),
    /// All names were asked for: these are held.
    Names(&'a [String]),
    /// The same, and the call failed.
    NamesFailed,
    /// The same, and there was no memory for the names.
    NamesMemory,
}

impl KeeperJournal {
    ghost use Rattle.keepers.specs.KeeperNoted.{noted};

    /// No call yet.
    pub(crate) fn new() -> KeeperJournal
        ensures { result.calls ≡ [] }
    {
        KeeperJournal {}
    }

    /// The journal with this call behind the others.
    #[inline(always)]
    pub(crate) fn then(&self, _note: &KeeperNote<'_>) -> KeeperJournal
        ensures { result.calls ≡ noted self.now.calls _note.now }
    {
        KeeperJournal {}
    }
}
