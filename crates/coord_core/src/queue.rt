//! The units that wait to be made, in the order in which they start.
ghost use Rattle.std.specs.Prelude.{◌≡◌, ◌<◌, ◌≤◌, position, vec_len, vec_capacity};
ghost use Rattle.coord_core.specs.State.{precedes, placed};
ghost use Rattle.coord_core.specs.Effect.{kept_to};
ghost use Rattle.coord_core.specs.Decide.{full_enough};
ghost use Rattle.coord_core.specs.Queued.{head_of, rest_of};

/// A unit that was generated and waits to be made.
#[derive(Clone, Copy, PartialEq, Eq, Debug, Drop)]
pub struct Queued {
    /// What making it is expected to cost.
    pub cost: u32,
    /// The unit.
    pub unit: u32,
}

impl Queued {
    // Whether this unit starts first: the dearer, and of equally dear ones the lesser.
    fn precedes(&self, other: &Queued) -> bool
        ensures { result ≡ precedes self.now other.now }
    {
        self.cost > other.cost || (self.cost == other.cost && self.unit < other.unit)
    }
}

// Where the first stands that starts after the unit.
fn place_behind(queue: &[Queued], entry: &Queued) -> Option<usize>
    ensures { result ≡ position (λ x. precedes entry.now x) queue.now }
{
    queue.iter().position(|other| entry.precedes(other))
}

// The unit waits in its place.
pub fn place(queue: &mut Vec<Queued>, entry: Queued)
    requires { vec_len queue.old < vec_capacity queue.old }
    ensures order { queue.new.items ≡ placed entry queue.old.items }
    ensures capacity { vec_capacity queue.new ≡ vec_capacity queue.old }
{
    let at = place_behind(queue, &entry).unwrap_or(queue.len());
    let _ = queue.insert(at, entry);
}

// The head of the queue leaves it.
pub fn take_head(queue: &mut Vec<Queued>) -> Option<u32>
    ensures head { result ≡ head_of queue.old.items }
    ensures rest { queue.new.items ≡ rest_of queue.old.items }
    ensures capacity { vec_capacity queue.new ≡ vec_capacity queue.old }
{
    if queue.is_empty() {
        return None;
    }
    Some(queue.remove(0).unit)
}

// The units above the bar no longer wait.
pub fn keep_to(queue: &mut Vec<Queued>, bar: u32)
    ensures kept { queue.new.items ≡ kept_to bar queue.old.items }
    ensures capacity { vec_capacity queue.new ≡ vec_capacity queue.old }
{
    queue.retain(|entry| entry.unit <= bar);
}

/// Whether so many queued units are enough for so many jobs that none need be generated now: one at
/// least, and as many as a quarter of the jobs.
pub fn is_full_enough(queued: usize, running: usize) -> bool
    requires { running ≤ 64 }
    ensures { result ≡ full_enough queued running }
{
    queued > 0 && queued >= running - 3 * running / 4
}
