//! The lease word, read as two numbers. The number held stands above the low 32 bits, and the
//! number running in them, so that one fetch changes either and reads both.

/// The lease word as a begin step left it.
#[derive(Clone, Copy, PartialEq, Eq, Debug, Drop)]
pub struct Reading {
    /// The tokens that were held, at most 63.
    pub held: u8,
    /// The busy leases, with the one that began here; at most one more than were held.
    pub running: u8,
}

/// One token in the lease word. One busy lease is 1.
pub(crate) const TOKEN: u64 = 1 << 32;
