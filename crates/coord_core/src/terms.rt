//! What a run is told at its start, and what nothing in it changes.

/// The terms of a run.
#[derive(Clone, Copy, PartialEq, Eq, Debug, Drop)]
pub struct Terms {
    /// How many units there are. They have the numbers from 0.
    pub units: u32,
    /// How many jobs may be out at once.
    pub lanes: u8,
    /// Whether the run keeps going after a refusal. If not, only the units below the least refused one
    /// are still made.
    pub keep: bool,
}
