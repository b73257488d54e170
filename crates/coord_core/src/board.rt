//! The state in code: each decision is a step that leaves the definition's state.
ghost use Rattle.std.specs.Prelude.{◌≡◌, ◌+◌, ◌*◌, ◌<◌, ◌≤◌, ◌&&◌, length, nat_lt, true, false, Some, None, IfOk, if◌then◌else◌};
ghost use Rattle.coord_core.specs.State.{one_some, is_gen, bytes_in, own_of};
ghost use Rattle.coord_core.specs.Effect.{cut, ended, gen_ended, wanted, generated, effect};
ghost use Rattle.coord_core.specs.Decide.{may_generate, more_to_do, full_enough, is_free, is_to_generate, pass, pass_by, start, start_by, give, main, main_act, lends, lend_by, token_has_work, asks_now, ask, decided, actions_of};
ghost use Rattle.coord_core.specs.Run.{first, is_awaited, is_finished};
ghost use Rattle.coord_core.specs.Laws.{Bounded, Fits};

use crate::event::{Actions, Event, Main};
use crate::giving;
use crate::job::{self, Job};
use crate::queue::{self, Queued};
use crate::terms::Terms;
use std::alloc::{AllocError, Global};

/// What the coordinator knows.
#[derive(Drop)]
pub struct Board {
    /// What the run was told at its start.
    pub terms: Terms,
    /// The unit to generate next.
    pub next: u32,
    /// The unit that is being generated.
    pub generating: Option<u32>,
    /// The units to make, the next to start first.
    pub queue: Vec<Queued>,
    /// The jobs that are out.
    pub running: Vec<Job>,
    /// All units below it are made. It is the number of units, until a failure lowers it.
    pub bar: u32,
    /// Whether tokens may still be asked for.
    pub asks: bool,
    /// Whether an ask is out.
    pub asking: bool,
    /// The tokens that are being given back.
    pub giving: Vec<u8>,
    /// A token that pays nothing yet.
    pub spare: Option<u8>,
}

impl Board {
    ghost use Rattle.coord_core.specs.Board.{state_of, HasRoom};

    /// The state before anything is decided, with memory for all that it will hold.
    pub fn new(alloc: Global, terms: Terms) -> Result<Board, AllocError>
        requires { terms.units ≤ 65536 }
        ensures { IfOk result (λ b. (state_of b ≡ first terms) × HasRoom b) }
    {
        let queue = Vec::with_capacity(alloc, terms.units as usize)?;
        let running = Vec::with_capacity(alloc, 64)?;
        let giving = Vec::with_capacity(alloc, 3 * terms.units as usize)?;
        Ok(Board {
            terms,
            next: 0,
            generating: None,
            queue,
            running,
            bar: terms.units,
            asks: true,
            asking: false,
            giving,
            spare: None,
        })
    }

    // A failure of the unit: what waits above it is dropped, unless the run keeps going.
    fn cut(&mut self, keep: bool, unit: u32)
        ensures state { state_of self.new ≡ cut keep unit (state_of self.old) }
        ensures room { HasRoom self.old → HasRoom self.new }
    {
        if keep {
            return;
        }
        self.bar = self.bar.min(unit);
        queue::keep_to(&mut self.queue, self.bar);
    }

    // The unit's job is over.
    fn end(&mut self, unit: u32)
        ensures state { state_of self.new ≡ ended unit (state_of self.old) }
        ensures room { HasRoom self.old → HasRoom self.new }
    {
        self.spare = job::end_job(&mut self.running, unit);
    }

    // The unit was generated at this cost.
    fn generated(&mut self, unit: u32, cost: u32)
        requires room { HasRoom self.old }
        requires fits { length self.old.queue.items < self.old.terms.units }
        ensures state { state_of self.new ≡ generated unit cost (state_of self.old) }
        ensures room { HasRoom self.new }
    {
        self.generating = None;
        if unit < self.bar {
            queue::place(&mut self.queue, Queued { cost, unit });
        }
    }

    // The unit found no memory. No run keeps going after that.
    fn wanted(&mut self, unit: u32)
        ensures state { state_of self.new ≡ wanted (is_gen unit self.old.generating) unit (state_of self.old) }
        ensures room { HasRoom self.old → HasRoom self.new }
    {
        if self.is_generating(unit) {
            self.generating = None;
        } else {
            self.end(unit);
        }
        self.cut(false, unit);
    }

    // Whether the unit is the one that is generated.
    fn is_generating(&self, unit: u32) -> bool
        ensures { result ≡ is_gen unit self.now.generating }
    {
        match self.generating {
            Some(generating) => generating == unit,
            None => false,
        }
    }

    // Whether more units are to be generated.
    fn may_generate(&self) -> bool
        ensures { result ≡ may_generate (state_of self.now) }
    {
        self.next < self.terms.units && self.bar == self.terms.units
    }

    // Whether there is work for one more job.
    fn more_to_do(&self) -> bool
        ensures { result ≡ more_to_do (state_of self.now) }
    {
        !self.queue.is_empty() || self.may_generate()
    }

    // A spare token pays the job on the implicit slot, where that frees the slot for more work.
    fn pass(&mut self) -> Option<(u8, u32)>
        ensures state { state_of self.new ≡ pass (state_of self.old) }
        ensures action { result ≡ pass_by self.old.spare (own_of self.old.running.items) (more_to_do (state_of self.old)) }
        ensures room { HasRoom self.old → HasRoom self.new }
    {
        if !self.more_to_do() {
            return None;
        }
        match (self.spare, job::own_job(&self.running)) {
            (Some(byte), Some(unit)) => {
                job::pay_own(&mut self.running, byte);
                self.spare = None;
                Some((byte, unit))
            }
            _ => None,
        }
    }

    // A token that is still spare pays the head of the queue.
    fn start(&mut self) -> Option<(u8, u32)>
        requires room { HasRoom self.old }
        requires fits { length self.old.running.items + one_some self.old.spare ≤ 64 }
        ensures state { state_of self.new ≡ start (state_of self.old) }
        ensures action { result ≡ start_by self.old.spare self.old.queue.items }
        ensures room { HasRoom self.new }
    {
        let byte = self.spare?;
        let unit = queue::take_head(&mut self.queue)?;
        self.spare = None;
        self.running.push_reserved(Job {
            unit,
            payer: Some(byte),
        });
        Some((byte, unit))
    }

    // A token that is still spare is given back.
    fn give(&mut self) -> Option<u8>
        requires room { HasRoom self.old }
        requires fits { length self.old.giving.items + one_some self.old.spare ≤ 3 * self.old.terms.units }
        ensures state { state_of self.new ≡ give (state_of self.old) }
        ensures action { result ≡ self.old.spare }
        ensures room { HasRoom self.new }
    {
        let byte = self.spare?;
        self.spare = None;
        self.giving.push_reserved(byte);
        Some(byte)
    }

    // Whether the implicit slot has neither a generation nor a job.
    fn is_free(&self) -> bool
        ensures { result ≡ is_free (state_of self.now) }
    {
        self.generating.is_none() && job::own_job(&self.running).is_none()
    }

    // Whether a unit is to be generated before a queued one runs.
    fn is_to_generate(&self) -> bool
        requires { length self.now.running.items ≤ 64 }
        ensures { result ≡ is_to_generate (state_of self.now) }
    {
        self.may_generate() && !queue::is_full_enough(self.queue.len(), self.running.len())
    }

    // The free slot generates the next unit while too little waits, and else runs the head of the queue.
    fn fill_slot(&mut self) -> Main
        requires room { HasRoom self.old }
        requires most { length self.old.running.items ≤ 64 }
        requires fits { is_free (state_of self.old) ≡ true → length self.old.running.items < 64 }
        ensures state { state_of self.new ≡ main (state_of self.old) }
        ensures action { result ≡ main_act (state_of self.old) (is_free (state_of self.old)) (is_to_generate (state_of self.old)) }
        ensures room { HasRoom self.new }
    {
        if !self.is_free() {
            return Main::Idle;
        }
        if self.is_to_generate() {
            let unit = self.next;
            self.generating = Some(unit);
            self.next = unit + 1;
            return Main::Generate(unit);
        }
        self.lend()
    }

    // The head of the queue runs on the implicit slot.
    fn lend(&mut self) -> Main
        requires room { HasRoom self.old }
        requires fits { length self.old.running.items < 64 }
        ensures state { state_of self.new ≡ lends (state_of self.old) self.old.queue.items }
        ensures action { result ≡ lend_by self.old.queue.items }
        ensures room { HasRoom self.new }
    {
        match queue::take_head(&mut self.queue) {
            Some(unit) => {
                self.running.push_reserved(Job { unit, payer: None });
                Main::Lend(unit)
            }
            None => Main::Idle,
        }
    }

    // Whether a token would have work: a unit that waits, or one to generate if the slot were free.
    fn token_has_work(&self) -> bool
        ensures { result ≡ token_has_work (state_of self.now) }
    {
        !self.queue.is_empty() || (job::own_job(&self.running).is_some() && self.may_generate())
    }

    // Whether a token has work, and a lane is free that it could pay for.
    fn asks_now(&self) -> bool
        ensures { result ≡ asks_now (state_of self.now) }
    {
        let may = self.asks && !self.asking;
        may && job::count_paid(&self.running) + 1 < self.terms.lanes as usize
            && self.token_has_work()
    }

    // A token is asked for, if one may be.
    fn ask(&mut self, may: bool) -> bool
        ensures state { state_of self.new ≡ ask may (state_of self.old) }
        ensures action { result ≡ (may && asks_now (state_of self.old)) }
        ensures room { HasRoom self.old → HasRoom self.new }
    {
        let asks = may && self.asks_now();
        if asks {
            self.asking = true;
        }
        asks
    }

    /// Whether the event answers an action that is out.
    pub fn is_awaited(&self, event: &Event) -> bool
        ensures { result ≡ is_awaited (state_of self.now) event.now }
    {
        match *event {
            Event::Took(_) | Event::Empty | Event::TakeFault => self.asking,
            Event::Generated(unit, _) | Event::GenFailed(unit) => self.is_generating(unit),
            Event::Made(unit) | Event::MakeFailed(unit) => job::is_running(&self.running, unit),
            Event::Wanted(unit) => {
                self.is_generating(unit) || job::is_running(&self.running, unit)
            }
            Event::Gave(byte) | Event::GiveFault(byte) => giving::has_byte(&self.giving, byte),
        }
    }

    /// Whether no job, generation, ask or give is out.
    pub fn is_finished(&self) -> bool
        ensures { result ≡ is_finished (state_of self.now) }
    {
        self.running.is_empty()
            && self.generating.is_none()
            && !self.asking
            && self.giving.is_empty()
    }

    /// What the event itself changes.
    pub fn take_in(&mut self, event: Event)
        requires room { HasRoom self.old }
        requires fits { Fits self.old.terms.units (state_of self.old) }
        requires awaited { is_awaited (state_of self.old) event ≡ true }
        ensures state { state_of self.new ≡ effect event (state_of self.old) }
        ensures room { HasRoom self.new }
    {
        match event {
            Event::Took(byte) => {
                self.asking = false;
                self.spare = Some(byte);
            }
            Event::Empty => self.asking = false,
            Event::TakeFault => {
                self.asking = false;
                self.asks = false;
            }
            Event::Generated(unit, cost) => self.generated(unit, cost),
            Event::GenFailed(unit) => {
                self.generating = None;
                self.cut(self.terms.keep, unit);
            }
            Event::Made(unit) => self.end(unit),
            Event::MakeFailed(unit) => {
                self.end(unit);
                self.cut(self.terms.keep, unit);
            }
            Event::Wanted(unit) => self.wanted(unit),
            Event::Gave(byte) | Event::GiveFault(byte) => {
                giving::take_byte(&mut self.giving, byte);
            }
        }
    }

    /// What is decided after an event, in this order.
    pub fn decide(&mut self, may_ask: bool) -> Actions
        requires room { HasRoom self.old }
        requires fits { Fits self.old.terms.units (state_of self.old) }
        requires bound { Bounded self.old.terms.lanes (state_of self.old) }
        requires lanes { self.old.terms.lanes ≤ 64 }
        ensures state { state_of self.new ≡ decided may_ask (state_of self.old) }
        ensures actions { result ≡ actions_of may_ask (state_of self.old) }
        ensures room { HasRoom self.new }
    {
        let pass = self.pass();
        let start = self.start();
        let give = self.give();
        let main = self.fill_slot();
        let ask = self.ask(may_ask);
        Actions {
            pass,
            start,
            give,
            main,
            ask,
        }
    }
}
