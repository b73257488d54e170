ghost use Rattle.std.specs.Prelude.{◌≡◌, ◌++◌, ◌∷◌, []};
ghost use Rattle.files.specs.FilesState.{done_of, found_of};
ghost use Rattle.journal.specs.Journal.{Asked, Stored};

use crate::{Read, Wrote};
use journal::{Done, Journal, Missed, Note};
use std::alloc::AllocError;

/// The journal with a read more. It costs nothing when the program runs.
#[inline(always)]
pub(crate) fn with_read(
    journal: &Journal,
    name: &str,
    most: u64,
    answer: &Result<Read, AllocError>,
) -> Journal
    ensures { result.calls ≡ journal.now.calls ++ Asked name.now most (found_of answer.now) ∷ [] }
{
    match answer {
        Ok(Read::Bytes(bytes)) => journal.then(&Note::Found(name, most, bytes.as_slice())),
        Ok(Read::Absent) => journal.then(&Note::Missed(name, most, Missed::Absent)),
        Ok(Read::Failed) => journal.then(&Note::Missed(name, most, Missed::Failed)),
        Err(_) => journal.then(&Note::Missed(name, most, Missed::Memory)),
    }
}

/// The journal with a write more.
#[inline(always)]
pub(crate) fn with_write(journal: &Journal, name: &str, bytes: &[u8], answer: Wrote) -> Journal
    ensures { result.calls ≡ journal.now.calls ++ Stored name.now bytes.now (done_of answer) ∷ [] }
{
    match answer {
        Wrote::Done => journal.then(&Note::Stored(name, bytes, Done::Done)),
        Wrote::Failed => journal.then(&Note::Stored(name, bytes, Done::Failed)),
        Wrote::Memory => journal.then(&Note::Stored(name, bytes, Done::Memory)),
    }
}
