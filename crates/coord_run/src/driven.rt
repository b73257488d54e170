//! What a call of `drive` answers.
use coord_core::Event;
use lar_bytes::Bytes;
use lease_table::Reading;

/// What came of a unit.
#[derive(Debug, Drop)]
pub enum Made<F> {
    /// Its bytes.
    Made(Bytes),
    /// The work refuses it, when it is generated or when it is made.
    Refused(F),
    /// There was no memory to generate or to make it.
    Wanted,
    /// It was not reached, or dropped: a unit before it found no memory, or was refused where the session
    /// does not keep going.
    Skipped,
}

/// An event, and for one of a job or a generation the lease word as its begin step left it.
#[derive(Clone, Copy, PartialEq, Eq, Debug, Drop)]
pub struct Entry {
    pub event: Event,
    pub reading: Option<Reading>,
}

/// What a session did.
#[derive(Debug, Drop)]
pub struct Driven<F> {
    /// What came of each unit, in unit order.
    pub outcomes: Vec<Made<F>>,
    /// The events, in order.
    pub journal: Vec<Entry>,
    /// The bytes that could not be given back, in order.
    pub lost: Bytes,
    /// How often a unit was made, or its making was refused or found no memory.
    pub tally: u64,
}
