//! Journals: what was asked of an object of the outside and what it answered, for contracts alone.
//!
//! A folder or a stream tells nothing of what it holds. It can keep a [`Journal`], and then contracts speak of the
//! very bytes that it answered, of each call, in order. A journal takes no memory and its methods do nothing when the
//! program runs. What it says is as true as the object's own few lines, which note each call with its answer: nobody
//! else can add to it. [`Journal::new`] promises that nothing was called, [`Journal::then`] that one call more was,
//! the noted one. Objects that are asked by names and streams share one kind of journal. The crate stands on std
//! alone.
#![tactic(auto)]

mod journal;

pub use journal::{Done, Journal, Missed, Note};

#[cfg(test)]
mod tests {
    use super::*;

    #[test]
    fn a_journal_is_begun_and_goes_on() {
        let mut journal = Journal::new();
        let notes = [
            Note::Found("a", 3, b"xyz"),
            Note::Missed("b", 3, Missed::Absent),
            Note::Stored("b", b"xyz", Done::Failed),
            Note::Put(b"done\n", Done::Done),
        ];
        for note in notes {
            journal = journal.then(&note);
        }
        let _ = journal;
    }
}
