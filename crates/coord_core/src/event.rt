//! What the coordinator is told, and what it answers.
ghost use Rattle.std.specs.Prelude.{◌≡◌};
ghost use Rattle.coord_core.specs.Decide.{may_ask};
ghost use Rattle.coord_core.specs.Journal.{failed_by, lesser_by};

/// What came of an action that was out. A byte is a token's, and a number names a unit by its index.
#[derive(Clone, Copy, PartialEq, Eq, Debug, Drop)]
pub enum Event {
    /// The ask was answered by a token.
    Took(u8),
    /// The ask found no token.
    Empty,
    /// The ask failed: the pool can't be read.
    TakeFault,
    /// The unit was generated, at this cost of making it.
    Generated(u32, u32),
    /// The unit's generation was refused.
    GenFailed(u32),
    /// The unit's job made it.
    Made(u32),
    /// The unit's job was refused.
    MakeFailed(u32),
    /// The unit's generation or job found no memory.
    Wanted(u32),
    /// The token was given back.
    Gave(u8),
    /// The token could not be given back, and is lost.
    GiveFault(u8),
}

impl Event {
    // Whether a token may be asked for after it: not where it says that none is to be had, nor after a
    // give, which came of having no work for one.
    pub(crate) fn may_ask(&self) -> bool
        ensures { result ≡ may_ask self.now }
    {
        match *self {
            Event::Empty | Event::TakeFault | Event::Gave(_) | Event::GiveFault(_) => false,
            Event::Took(_)
            | Event::Generated(_, _)
            | Event::GenFailed(_)
            | Event::Made(_)
            | Event::MakeFailed(_)
            | Event::Wanted(_) => true,
        }
    }

    // The lesser of this unit, if there is one, and the one whose failure the event tells.
    pub(crate) fn lesser_failure(&self, least: Option<u32>) -> Option<u32>
        ensures { result ≡ lesser_by (failed_by self.now) least }
    {
        match *self {
            Event::GenFailed(unit) | Event::MakeFailed(unit) | Event::Wanted(unit) => {
                Some(least.map_or(unit, |other| unit.min(other)))
            }
            _ => least,
        }
    }
}

/// What the caller's own thread, which has the implicit slot, is to do.
#[derive(Clone, Copy, PartialEq, Eq, Debug, Drop)]
pub enum Main {
    /// Nothing new.
    Idle,
    /// Generate this unit.
    Generate(u32),
    /// Lend the slot to this unit's job.
    Lend(u32),
}

/// What is to be done after an event, in the order of the fields.
#[derive(Clone, Copy, PartialEq, Eq, Debug, Drop)]
pub struct Actions {
    /// This token pays this unit's job from now on, which ran on the implicit slot.
    pub pass: Option<(u8, u32)>,
    /// This unit's job is to start, paid by this token.
    pub start: Option<(u8, u32)>,
    /// This token is to be given back.
    pub give: Option<u8>,
    /// What the implicit slot is for.
    pub main: Main,
    /// A token is to be asked for.
    pub ask: bool,
}
