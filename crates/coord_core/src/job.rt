//! The jobs that are out.
ghost use Rattle.std.specs.Prelude.{◌≡◌, ◌≤◌, ◌==◌, length, vec_capacity, is_none, position};
ghost use Rattle.coord_core.specs.State.{own_of, payers, runs, payer_of, jobs_without, paid_by};

/// A job that is out.
#[derive(Clone, Copy, PartialEq, Eq, Debug, Drop)]
pub struct Job {
    /// The unit that it makes.
    pub unit: u32,
    /// The token that pays it. A job without one has the implicit slot.
    pub payer: Option<u8>,
}

// The unit of the job on the implicit slot.
pub fn own_job(running: &[Job]) -> Option<u32>
    ensures { result ≡ own_of running.now }
{
    running
        .iter()
        .find(|job| job.payer.is_none())
        .map(|job| job.unit)
}

// How many jobs a token pays.
#[tactic(auto, using(crate::proofs::Places::payers_count))]
pub fn count_paid(running: &[Job]) -> usize
    ensures count { result ≡ payers running.now }
    ensures most { result ≤ length running.now }
{
    running.iter().filter(|job| job.payer.is_some()).count()
}

// Whether a job makes the unit.
pub fn is_running(running: &[Job], unit: u32) -> bool
    ensures { result ≡ runs unit running.now }
{
    running.iter().any(|job| job.unit == unit)
}

// Where the job on the implicit slot stands.
fn place_of_own(running: &[Job]) -> Option<usize>
    ensures { result ≡ position (λ j. is_none j.payer) running.now }
{
    running.iter().position(|job| job.payer.is_none())
}

// Where the unit's job stands.
fn place_of(running: &[Job], unit: u32) -> Option<usize>
    ensures { result ≡ position (λ j. j.unit == unit) running.now }
{
    running.iter().position(|job| job.unit == unit)
}

// The byte pays the job on the implicit slot from now on.
pub fn pay_own(running: &mut Vec<Job>, byte: u8)
    ensures jobs { running.new.items ≡ paid_by byte running.old.items }
    ensures capacity { vec_capacity running.new ≡ vec_capacity running.old }
{
    if let Some(at) = place_of_own(running) {
        running[at].payer = Some(byte);
    }
}

// The unit's job is over, and its byte is answered.
pub fn end_job(running: &mut Vec<Job>, unit: u32) -> Option<u8>
    ensures jobs { running.new.items ≡ jobs_without unit running.old.items }
    ensures byte { result ≡ payer_of unit running.old.items }
    ensures capacity { vec_capacity running.new ≡ vec_capacity running.old }
{
    match place_of(running, unit) {
        Some(at) => running.remove(at).payer,
        None => None,
    }
}
