//! What goes to a lane and what comes back.
ghost use Rattle.std.specs.Prelude.{◌≡◌, Some};

use lar_bytes::{Bytes, OrMemory};
use lease_table::{Lease, Reading};

/// A unit's part to be made, with the lease that pays for it.
#[derive(Drop)]
pub struct Job<P> {
    pub unit: u32,
    pub part: P,
    pub lease: Lease,
}

/// What came of a job. Its type keeps what it shows by itself: the lease names the unit and keeps the
/// reading, and its counter counted one make.
#[derive(Drop)]
pub struct Done<F> {
    pub unit: u32,
    pub lease: Lease,
    /// The lease word as the job's begin step left it.
    pub reading: Reading,
    /// How often the unit was made.
    pub makes: u64,
    pub outcome: Result<Bytes, OrMemory<F>>,
    pub ghost job: { lease.job ≡ Some unit },
    pub ghost word: { lease.last ≡ Some reading },
    pub ghost once: { makes ≡ 1 },
}

/// What a lane is sent.
#[derive(Drop)]
pub enum Message<P> {
    /// A job to run.
    Run(Job<P>),
    /// No more jobs.
    Stop,
}
