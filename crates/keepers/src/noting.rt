//! Calls on a keeper, noted with their answers. Nothing of it runs.

ghost use Rattle.std.specs.Prelude.{◌≡◌, ◌++◌, ◌∷◌, []};
ghost use Rattle.keepers.specs.KeeperCalls as call;
ghost use Rattle.keepers.specs.KeeperState.{done_of, found_of, listing_of};

use crate::keeper_journal::{KeeperJournal, KeeperNote};
use crate::{Loaded, Named, Saved};
use journal::{Done, Missed};
use std::alloc::AllocError;

fn done(answer: Saved) -> Done
    ensures { result ≡ done_of answer }
{
    match answer {
        Saved::Done => Done::Done,
        Saved::Failed => Done::Failed,
        Saved::Memory => Done::Memory,
    }
}

/// The journal with a load more.
#[inline(always)]
pub(crate) fn with_load(
    journal: &KeeperJournal,
    name: &str,
    most: u64,
    answer: &Result<Loaded, AllocError>,
) -> KeeperJournal
    ensures { result.calls ≡ journal.now.calls ++ call.Loaded name.now most (found_of answer.now) ∷ [] }
{
    match answer {
        Ok(Loaded::Bytes(bytes)) => journal.then(&KeeperNote::Found(name, most, bytes.as_slice())),
        Ok(Loaded::Absent) => journal.then(&KeeperNote::Missed(name, most, Missed::Absent)),
        Ok(Loaded::Failed) => journal.then(&KeeperNote::Missed(name, most, Missed::Failed)),
        Err(_) => journal.then(&KeeperNote::Missed(name, most, Missed::Memory)),
    }
}

/// The journal with a save more.
#[inline(always)]
pub(crate) fn with_save(
    journal: &KeeperJournal,
    name: &str,
    bytes: &[u8],
    answer: Saved,
) -> KeeperJournal
    ensures { result.calls ≡ journal.now.calls ++ call.Saved name.now bytes.now (done_of answer) ∷ [] }
{
    journal.then(&KeeperNote::Saved(name, bytes, done(answer)))
}

/// The journal with a remove more.
#[inline(always)]
pub(crate) fn with_remove(journal: &KeeperJournal, name: &str, answer: Saved) -> KeeperJournal
    ensures { result.calls ≡ journal.now.calls ++ call.Removed name.now (done_of answer) ∷ [] }
{
    journal.then(&KeeperNote::Removed(name, done(answer)))
}

/// The journal with a question for the names more.
#[inline(always)]
pub(crate) fn with_names(
    journal: &KeeperJournal,
    answer: &Result<Named, AllocError>,
) -> KeeperJournal
    ensures { result.calls ≡ journal.now.calls ++ call.Named (listing_of answer.now) ∷ [] }
{
    match answer {
        Ok(Named::Names(names)) => journal.then(&KeeperNote::Names(names.as_slice())),
        Ok(Named::Failed) => journal.then(&KeeperNote::NamesFailed),
        Err(_) => journal.then(&KeeperNote::NamesMemory),
    }
}
