//! The lanes, as the loop uses them: jobs go out, results come in. A job that the channel hands back,
//! as where no lane was started, is run here, and its result waits with those of the lanes.
//!
//! At most 64 jobs are out, and the channel to the lanes has room for as many jobs and stops: a send
//! finds room, but where another thread is in the middle of a step on the channel.
ghost use Rattle.std.specs.Prelude.{◌≡◌, ◌≤◌, ◌<◌, ◌+◌, Some, IfOk};
ghost use Rattle.std.specs.Arc.{arc_value};
ghost use Rattle.coord_run.specs.Messages.{FitsJob, FitsDone};

use crate::ends::{Ends, JOBS, open};
use crate::gate::Gate;
use crate::job::do_job;
use crate::message::{Done, Job, Message};
use crate::rules::Naming;
use crate::work::Work;
use std::alloc::{AllocError, Global};
use std::marker::Model;
use std::sync::{Arc, Wait};
use std::thread::Threads;

/// The lanes of a call.
pub struct Lanes<W: Work, G: Gate, J: Naming<W>> {
    ends: Ends<W, J>,
    work: Arc<W>,
    gate: Arc<G>,
    alloc: Global,
    waiting: u8,
    own: Vec<Done<W::Fault>>,
    ghost same: { arc_value ends.work ≡ arc_value work },
}

impl<W: Work, G: Gate, J: Naming<W>> Model for Lanes<W, G, J> {
    ghost use Rattle.std.specs.Prelude.{◌≤◌, All, vec_len, vec_capacity};
    ghost use Rattle.std.specs.Arc.{arc_value};
    ghost use Rattle.coord_run.specs.Messages.{FitsDone};
    ghost use Rattle.coord_run.specs.Lanes.{LanesState};

    ghost Value = { LanesState W };

    ghost view = { λ l. record { work = arc_value l.work; waiting = l.waiting } };

    ghost invariant = { λ l. All (FitsDone (W.meaning (arc_value l.work))) l.own.items × (64 ≤ vec_capacity l.own) × (vec_len l.own ≤ l.waiting) × (l.waiting ≤ 64) };
}

impl<W: Work, G: Gate, J: Naming<W>> Lanes<W, G, J> {
    /// As many lanes as could be started, at most so many.
    pub fn open<R: Threads + Wait + Copy + Send + Sync + 'static>(
        rt: &R,
        alloc: Global,
        work: &Arc<W>,
        gate: &Arc<G>,
        lanes: u8,
    ) -> Result<Lanes<W, G, J>, AllocError>
        requires { J.work ≡ Some (arc_value work.now) }
        ensures { IfOk result (λ l. (l.work ≡ arc_value work.now) × (l.waiting ≡ 0)) }
    {
        let own_work = Arc::try_clone(work)?;
        let own_gate = Arc::try_clone(gate)?;
        let own = Vec::with_capacity(alloc, JOBS)?;
        let ends = open::<W, G, J, R>(rt, alloc, work, gate, lanes)?;
        Ok(Lanes {
            ends,
            work: own_work,
            gate: own_gate,
            alloc,
            waiting: 0,
            own,
        })
    }

    /// The work whose jobs they run.
    pub fn work(&self) -> &W
        ensures { result.now ≡ self.now.work }
    {
        &self.work
    }

    /// Where jobs and generations take their memory.
    pub fn alloc(&self) -> Global {
        self.alloc
    }

    /// Sends a job out.
    pub fn send<R: Wait>(&mut self, rt: &R, job: Job<W::Part>)
        requires fits { FitsJob (W.meaning self.old.work) job }
        requires room { self.old.waiting < 64 }
        ensures work { self.new.work ≡ self.old.work }
        ensures waiting { self.new.waiting ≡ self.old.waiting + 1 }
    {
        self.waiting += 1;
        match self.ends.send(rt, job) {
            Ok(()) => {}
            Err(Message::Run(job)) => {
                let done = do_job(rt, self.alloc, &self.work, &self.gate, job);
                self.own.push_reserved(done);
            }
            Err(Message::Stop) => unreachable!(),
        }
    }

    /// The next result.
    pub fn collect<R: Wait>(&mut self, rt: &R) -> Done<W::Fault>
        requires { 1 ≤ self.old.waiting }
        ensures work { self.new.work ≡ self.old.work }
        ensures waiting { self.new.waiting + 1 ≡ self.old.waiting }
        ensures fits { FitsDone (W.meaning self.old.work) result }
    {
        if let Some(done) = self.own.pop() {
            self.waiting -= 1;
            return done;
        }
        let done = self.ends.next(rt);
        self.waiting -= 1;
        done
    }

    /// Stops and joins the lanes.
    pub fn close<R: Threads + Wait>(self, rt: &R) {
        let Lanes {
            ends,
            work,
            gate,
            alloc: _,
            waiting: _,
            own,
        } = self;
        ends.close(rt);
        drop((own, gate, work));
    }
}
