//! The coordinator written down plainly, over lists in no order, each searched from end to end.
use super::super::*;
use crate::event::Main;

/// What it knows. A queued unit is its cost and number; a job its unit, and its token if one pays it.
#[derive(Drop)]
pub struct Plain {
    pub units: u32,
    pub lanes: u8,
    pub keep: bool,
    pub next: u32,
    pub generating: Option<u32>,
    pub queue: Vec<(u32, u32)>,
    pub running: Vec<(u32, Option<u8>)>,
    pub made: Vec<u32>,
    pub refused: Vec<u32>,
    pub wanted: Vec<u32>,
    pub asks: bool,
    pub asking: bool,
    pub giving: Vec<u8>,
    pub spare: Option<u8>,
}

// The least of the units, and of this one.
fn least(units: &[u32], most: u32) -> u32 {
    units.iter().fold(most, |least, unit| least.min(*unit))
}

impl Plain {
    pub fn new(alloc: Global, units: u32, lanes: u8, keep: bool) -> Plain {
        Plain {
            units,
            lanes,
            keep,
            next: 0,
            generating: None,
            queue: Vec::new(alloc),
            running: Vec::new(alloc),
            made: Vec::new(alloc),
            refused: Vec::new(alloc),
            wanted: Vec::new(alloc),
            asks: true,
            asking: false,
            giving: Vec::new(alloc),
            spare: None,
        }
    }

    /// The least unit that failed, or the number of units.
    pub fn failure(&self) -> u32 {
        least(&self.refused, least(&self.wanted, self.units))
    }

    /// The least unit that ended the run early, or the number of units.
    pub fn bar(&self) -> u32 {
        if self.keep {
            least(&self.wanted, self.units)
        } else {
            self.failure()
        }
    }

    /// Whether each unit below the bar was made, or refused where the run keeps going.
    pub fn is_covered(&self) -> bool {
        (0..self.bar()).all(|unit| self.made.contains(&unit)
            || (self.keep && self.refused.contains(&unit)))
    }

    pub fn finished(&self) -> bool {
        self.running.is_empty()
            && self.generating.is_none()
            && !self.asking
            && self.giving.is_empty()
    }

    fn drop_above(&mut self) {
        let bar = self.bar();
        self.queue.retain(|entry| entry.1 <= bar);
    }

    fn end(&mut self, unit: u32) {
        for job in &self.running {
            if job.0 == unit {
                self.spare = job.1;
            }
        }
        self.running.retain(|job| job.0 != unit);
    }

    fn given(&mut self, byte: u8) {
        if let Some(at) = self.giving.iter().position(|given| *given == byte) {
            let _ = self.giving.remove(at);
        }
    }

    fn own(&self) -> Option<u32> {
        let mut own = None;
        for job in &self.running {
            if job.1.is_none() {
                own = Some(job.0);
            }
        }
        own
    }

    fn may_generate(&self) -> bool {
        self.next < self.units && self.bar() == self.units
    }

    fn take_head(&mut self) -> Option<u32> {
        let mut head: Option<(u32, u32)> = None;
        for (cost, unit) in &self.queue {
            let first = match head {
                None => true,
                Some((dearest, least)) => { *cost > dearest || (*cost == dearest && *unit < least) }
            };
            if first {
                head = Some((*cost, *unit));
            }
        }
        let (_, unit) = head?;
        self.queue.retain(|entry| entry.1 != unit);
        Some(unit)
    }

    fn take_in(&mut self, event: Event) -> Result<(), AllocError> {
        match event {
            Event::Took(byte) => {
                self.asking = false;
                self.spare = Some(byte);
            }
            Event::Empty => self.asking = false,
            Event::TakeFault => {
                self.asking = false;
                self.asks = false;
            }
            Event::Generated(unit, cost) => {
                self.generating = None;
                if unit < self.bar() {
                    self.queue.push((cost, unit))?;
                }
            }
            Event::GenFailed(unit) => {
                self.generating = None;
                self.refused.push(unit)?;
            }
            Event::Made(unit) => {
                self.end(unit);
                self.made.push(unit)?;
            }
            Event::MakeFailed(unit) => {
                self.end(unit);
                self.refused.push(unit)?;
            }
            Event::Wanted(unit) => {
                if self.generating == Some(unit) {
                    self.generating = None;
                } else {
                    self.end(unit);
                }
                self.wanted.push(unit)?;
            }
            Event::Gave(byte) | Event::GiveFault(byte) => self.given(byte),
        }
        self.drop_above();
        Ok(())
    }

    fn pass(&mut self) -> Result<Option<(u8, u32)>, AllocError> {
        let (Some(byte), Some(unit)) = (self.spare, self.own()) else {
            return Ok(None);
        };
        if self.queue.is_empty() && !self.may_generate() {
            return Ok(None);
        }
        self.running.retain(|job| job.0 != unit);
        self.running.push((unit, Some(byte)))?;
        self.spare = None;
        Ok(Some((byte, unit)))
    }

    fn start(&mut self) -> Result<Option<(u8, u32)>, AllocError> {
        let Some(byte) = self.spare else {
            return Ok(None);
        };
        let Some(unit) = self.take_head() else {
            return Ok(None);
        };
        self.spare = None;
        self.running.push((unit, Some(byte)))?;
        Ok(Some((byte, unit)))
    }

    fn give(&mut self) -> Result<Option<u8>, AllocError> {
        if let Some(byte) = self.spare {
            self.giving.push(byte)?;
        }
        let give = self.spare;
        self.spare = None;
        Ok(give)
    }

    // A quarter of the jobs, rounded up.
    fn main(&mut self) -> Result<Main, AllocError> {
        if self.generating.is_some() || self.own().is_some() {
            return Ok(Main::Idle);
        }
        let few = self.queue.is_empty() || self.queue.len() < self.running.len().div_ceil(4);
        if few && self.may_generate() {
            let unit = self.next;
            self.generating = Some(unit);
            self.next = unit.saturating_add(1);
            return Ok(Main::Generate(unit));
        }
        match self.take_head() {
            Some(unit) => {
                self.running.push((unit, None))?;
                Ok(Main::Lend(unit))
            }
            None => Ok(Main::Idle),
        }
    }

    fn has_lane(&self) -> bool {
        let paid = self.running.iter().filter(|job| job.1.is_some()).count();
        paid.saturating_add(2) <= self.lanes as usize
    }

    fn token_has_work(&self) -> bool {
        !self.queue.is_empty() || (self.own().is_some() && self.may_generate())
    }

    fn ask(&mut self, told_none: bool) -> bool {
        let ask = self.asks
            && !self.asking
            && !told_none
            && self.has_lane()
            && self.token_has_work();
        if ask {
            self.asking = true;
        }
        ask
    }

    // The decisions, in order.
    fn decide(&mut self, told_none: bool) -> Result<Actions, AllocError> {
        let pass = self.pass()?;
        let start = self.start()?;
        let give = self.give()?;
        let main = self.main()?;
        let ask = self.ask(told_none);
        Ok(Actions {
            pass,
            start,
            give,
            main,
            ask,
        })
    }

    /// What is done first, where no event was told yet, or after the event.
    pub fn next(&mut self, event: Option<Event>) -> Result<Actions, AllocError> {
        match event {
            None => self.decide(false),
            Some(event) => {
                self.take_in(event)?;
                let told_none = matches!(
                    event,
                    Event::Empty | Event::TakeFault | Event::Gave(_) | Event::GiveFault(_)
                );
                self.decide(told_none)
            }
        }
    }
}
