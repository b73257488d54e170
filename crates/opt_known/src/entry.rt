//! What is kept of one slot.

/// What was learned of a slot.
#[derive(Clone, Copy, Drop)]
pub(crate) enum Fact {
    Nothing,
    /// It holds this word.
    Word(i64),
    /// It holds what that slot holds, unless words were put into that slot since.
    Slot(u8),
}

/// A slot's fact, when it was learned, and when words were last put into the slot.
#[derive(Clone, Copy, Drop)]
pub(crate) struct Entry {
    pub fact: Fact,
    pub learned: u64,
    pub written: u64,
}
