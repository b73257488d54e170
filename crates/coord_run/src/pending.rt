//! The actions that are out and that the coordinator answers itself, after each event, and their order.
//!
//! A byte is given back at once. Of a generation and an ask the one that was decided first comes first.
//! Where one answer decided both, the generation does. So an ask waits for one generation at most, and
//! never for one that a later event decides. A job's result is taken in where nothing else is out.
ghost use Rattle.std.specs.Prelude.{◌≡◌, Bool};
ghost use Rattle.coord_core.specs.State.{State};
ghost use Rattle.coord_core.specs.Laws.{gen_by, gen_or, asking_by};
ghost use Rattle.coord_run.specs.Turns.{ask_first_by};
ghost use Rattle.coord_run.specs.Pending.{no_pending, pending_after, IsPending, IsNext};

use coord_core::{Actions, Event, Main};

/// What is answered next.
#[derive(Clone, Copy, PartialEq, Eq, Debug, Drop)]
pub enum Turn {
    /// This byte is given back.
    Give(u8),
    /// A byte is asked for.
    Ask,
    /// This unit is generated.
    Generate(u32),
    /// The next result of a job is taken in.
    Collect,
}

/// A byte to give back, a unit to generate, and whether a byte is to be asked for.
#[derive(Clone, Copy, PartialEq, Eq, Debug, Drop)]
pub struct Pending {
    pub give: Option<u8>,
    pub generate: Option<u32>,
    pub ask: bool,
    /// Whether the ask was decided before the generation.
    pub ask_first: bool,
}

impl Pending {
    /// Those of the first actions.
    pub fn first(actions: &Actions) -> Pending
        ensures { result ≡ no_pending actions.now }
    {
        Pending {
            give: actions.give,
            generate: generate_or(actions.main, None),
            ask: actions.ask,
            ask_first: false,
        }
    }

    /// Those after the event and the actions on it, where no byte was being given besides the event's.
    pub fn after(&self, event: Event, actions: &Actions) -> Pending
        ensures { result ≡ pending_after event actions.now self.now }
    {
        let ask = ask_by(event, self.ask);
        Pending {
            give: actions.give,
            generate: generate_or(actions.main, generate_by(event, self.generate)),
            ask: ask || actions.ask,
            ask_first: is_ask_first(actions.main, ask, self.ask_first),
        }
    }

    /// What is answered next.
    pub fn turn(&self) -> Turn
        ensures { (s : State) (first : Bool) → IsPending s first self.now → IsNext s first result }
    {
        if let Some(byte) = self.give {
            return Turn::Give(byte);
        }
        match self.generate {
            Some(unit) if !(self.ask && self.ask_first) => Turn::Generate(unit),
            None if !self.ask => Turn::Collect,
            _ => Turn::Ask,
        }
    }
}

// Whether the ask, if it is still out, was decided before the generation, after these actions.
fn is_ask_first(main: Main, ask: bool, ask_first: bool) -> bool
    ensures { result ≡ ask_first_by main ask ask_first }
{
    match main {
        Main::Generate(_) => ask,
        _ => ask_first && ask,
    }
}

// Whether the ask is still out after the event.
fn ask_by(event: Event, ask: bool) -> bool
    ensures { result ≡ asking_by event ask }
{
    match event {
        Event::Took(_) | Event::Empty | Event::TakeFault => false,
        _ => ask,
    }
}

// The unit that is still to be generated after the event.
fn generate_by(event: Event, generate: Option<u32>) -> Option<u32>
    ensures { result ≡ gen_by event generate }
{
    match event {
        Event::Generated(_, _) | Event::GenFailed(_) => None,
        Event::Wanted(unit) if generate == Some(unit) => None,
        _ => generate,
    }
}

// The unit that is to be generated, where the actions may begin one.
fn generate_or(main: Main, generate: Option<u32>) -> Option<u32>
    ensures { result ≡ gen_or main generate }
{
    match main {
        Main::Generate(unit) => Some(unit),
        _ => generate,
    }
}
