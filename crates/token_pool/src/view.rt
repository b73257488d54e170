//! What the holder of a pass on the queue of free bytes knows. A view exists in proofs alone: the
//! rule speaks of the views of all passes, and each step changes that of the pass it is made with.
//! No value of these types is made.
use std::collections::LinkedList;

/// What a pass that is not spent knows.
pub struct Hand {
    /// The bytes that the pool was made with.
    pub bytes: LinkedList<u8>,
    /// The bytes that were taken through this pass and not given back.
    pub owed: LinkedList<u8>,
}

/// The pool's own view, which counts the passes that are out; that of a pass that is out; or one
/// that came back.
pub enum View {
    OfPool(Hand, u64),
    OfPass(Hand),
    Spent,
}
