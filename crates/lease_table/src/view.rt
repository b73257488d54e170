//! What the holder of a seat of the lease table knows. A view exists in proofs alone: the rule
//! speaks of the views of all seats, and each step changes that of the seat it is made with. No
//! value of these types is made.
use crate::reading::Reading;
use std::collections::LinkedList;

/// What the desk knows.
pub struct DeskView {
    /// Shares that are at the desk.
    pub share: u64,
    /// Tokens held.
    pub held: u64,
    /// The greatest number of tokens that was ever held.
    pub top: u64,
    /// The greatest number of tokens that was held since all shares were last at the desk.
    pub peak: u64,
    /// The job of the next lease, between the step that names it and the one that lends.
    pub named: Option<u32>,
    /// The jobs that are out.
    pub out: LinkedList<u32>,
    /// The job and the word of each lease that came back and had begun, in order.
    pub seen: LinkedList<(Option<u32>, Reading)>,
    /// The job that came back last, and `before`, the jobs that were out until then. A join of two
    /// seats tells nothing of the rule, so a spend keeps both for the look at the word after it,
    /// which tells that the job was out.
    pub back: Option<u32>,
    pub before: LinkedList<u32>,
    /// The word of the lease that came back last, and `bound`, the peak until then. A spend keeps
    /// these too, for the look to tell that no more were held in that word.
    pub word: Option<Reading>,
    pub bound: u64,
}

/// What a lease knows.
pub struct LeaseView {
    pub job: Option<u32>,
    pub busy: bool,
    /// The word as its last begin step left it, once it has begun.
    pub word: Option<Reading>,
}

/// What a seat knows: the desk's, a lease's, or one that the desk took back.
pub enum View {
    OfDesk(DeskView),
    OfLease(LeaseView),
    Spent,
}
