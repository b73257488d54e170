ghost use Rattle.std.specs.Prelude.{◌≡◌, ◌++◌, ◌∷◌, []};
ghost use Rattle.sinks.specs.Puts.{put_call, TakesWithin};

use crate::Put;
use journal::{Done, Journal, Note};

/// The journal with a put more. It costs nothing when the program runs.
#[inline(always)]
pub(crate) fn with_put(journal: &Journal, piece: &[u8], put: Put) -> Journal
    requires { TakesWithin put piece.now }
    ensures { result.calls ≡ journal.now.calls ++ put_call piece.now put ∷ [] }
{
    match put {
        Put::Took(count) => journal.then(&Note::Put(&piece[..count], Done::Done)),
        Put::Failed => journal.then(&Note::Put(piece, Done::Failed)),
        Put::Memory => journal.then(&Note::Put(piece, Done::Memory)),
    }
}
