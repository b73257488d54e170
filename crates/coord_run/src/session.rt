//! What the loop works on, beside the desk and the pool of its caller.
use crate::books::Books;
use crate::gate::Gate;
use crate::lanes::Lanes;
use crate::rules::Naming;
use crate::work::Work;

/// The books and the lanes of a session.
pub struct Session<W: Work, G: Gate, J: Naming<W>> {
    /// What is known of its units and events.
    pub books: Books<W::Part, W::Fault>,
    /// Where its jobs run.
    pub lanes: Lanes<W, G, J>,
}
