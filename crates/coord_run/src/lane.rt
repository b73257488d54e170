//! A lane: a thread that runs one job after another, until a stop comes or receiving fails. It owns a
//! handle on the work and on the gate, an end of each channel, and a pass on each. A result that the
//! channel hands back is sent again; whether that ends is not claimed.
ghost use Rattle.std.specs.Prelude.{◌≡◌, Some};
ghost use Rattle.std.specs.Arc.{arc_value};
ghost use Rattle.crossbeam_channel.specs.Ends.{sends_on, receives_on};
ghost use Rattle.crossbeam_channel.specs.Claims.{view, IsSeatAt};
ghost use Rattle.coord_run.specs.Static.{IsStatic};
ghost use Rattle.coord_run.specs.Messages.{FitsDone};

use crate::gate::Gate;
use crate::job::do_job;
use crate::message::{Done, Message};
use crate::rules::{DoneRule, FitsDones, FitsJobs, JobRule, Naming, Same};
use crate::work::Work;
use crossbeam_channel::{Pass, RuledReceiver, RuledSender};
use std::alloc::{AllocError, Global};
use std::sync::{Arc, Wait};
use std::thread;
use std::thread::{JoinHandle, Threads};

pub type JobSender<W, J> = RuledSender<Message<<W as Work>::Part>, Option<W>, JobRule<W, J>>;

pub type JobReceiver<W, J> = RuledReceiver<Message<<W as Work>::Part>, Option<W>, JobRule<W, J>>;

pub type JobPass<W> = Pass<Message<<W as Work>::Part>, Option<W>>;

pub type DoneSender<W, J> = RuledSender<Done<<W as Work>::Fault>, Option<W>, DoneRule<W, J>>;

pub type DoneReceiver<W, J> = RuledReceiver<Done<<W as Work>::Fault>, Option<W>, DoneRule<W, J>>;

pub type DonePass<W> = Pass<Done<<W as Work>::Fault>, Option<W>>;

/// What a lane owns.
#[derive(Drop)]
pub struct Seated<W: Work, G: Gate, J: Naming<W>> {
    work: Arc<W>,
    gate: Arc<G>,
    jobs: JobReceiver<W, J>,
    job_pass: JobPass<W>,
    dones: DoneSender<W, J>,
    done_pass: DonePass<W>,
    ghost jobs_seat: { IsSeatAt (receives_on jobs) job_pass },
    ghost jobs_work: { view job_pass ≡ Some (arc_value work) },
    ghost dones_seat: { IsSeatAt (sends_on dones) done_pass },
    ghost dones_work: { view done_pass ≡ Some (arc_value work) },
}

// Handles and passes for one more lane.
fn seat<W: Work, G: Gate, J: Naming<W>>(
    work: &Arc<W>,
    gate: &Arc<G>,
    jobs: &JobSender<W, J>,
    job_pass: &mut JobPass<W>,
    job_end: &JobReceiver<W, J>,
    dones: &DoneSender<W, J>,
    done_pass: &mut DonePass<W>,
) -> Result<Seated<W, G, J>, AllocError>
    requires jobs { IsSeatAt (sends_on jobs.now) job_pass.old × (receives_on job_end.now ≡ sends_on jobs.now) × (view job_pass.old ≡ Some (arc_value work.now)) }
    requires dones { IsSeatAt (sends_on dones.now) done_pass.old × (view done_pass.old ≡ Some (arc_value work.now)) }
    ensures jobs { IsSeatAt (sends_on jobs.now) job_pass.new × (view job_pass.new ≡ view job_pass.old) }
    ensures dones { IsSeatAt (sends_on dones.now) done_pass.new × (view done_pass.new ≡ view done_pass.old) }
{
    let own_work = Arc::try_clone(work)?;
    let own_gate = Arc::try_clone(gate)?;
    let own_jobs = job_end.try_clone()?;
    let own_dones = dones.try_clone()?;
    let own_job_pass = jobs.another::<Same>(job_pass);
    let own_done_pass = dones.another::<Same>(done_pass);
    Ok(Seated {
        work: own_work,
        gate: own_gate,
        jobs: own_jobs,
        job_pass: own_job_pass,
        dones: own_dones,
        done_pass: own_done_pass,
    })
}

/// Starts one more lane, if there are memory and a thread for it.
pub fn start_lane<W: Work, G: Gate, J: Naming<W>, R: Threads + Wait + Copy + Send + Sync + 'static>(
    rt: &R,
    alloc: Global,
    work: &Arc<W>,
    gate: &Arc<G>,
    jobs: &JobSender<W, J>,
    job_pass: &mut JobPass<W>,
    job_end: &JobReceiver<W, J>,
    dones: &DoneSender<W, J>,
    done_pass: &mut DonePass<W>,
) -> Option<JoinHandle<()>>
    requires jobs { IsSeatAt (sends_on jobs.now) job_pass.old × (receives_on job_end.now ≡ sends_on jobs.now) × (view job_pass.old ≡ Some (arc_value work.now)) }
    requires dones { IsSeatAt (sends_on dones.now) done_pass.old × (view done_pass.old ≡ Some (arc_value work.now)) }
    ensures jobs { IsSeatAt (sends_on jobs.now) job_pass.new × (view job_pass.new ≡ view job_pass.old) }
    ensures dones { IsSeatAt (sends_on dones.now) done_pass.new × (view done_pass.new ≡ view done_pass.old) }
{
    match seat::<W, G, J>(work, gate, jobs, job_pass, job_end, dones, done_pass) {
        Ok(seated) => spawn(rt, alloc, seated),
        Err(_) => None,
    }
}

// A thread that serves.
fn spawn<W: Work, G: Gate, J: Naming<W>, R: Threads + Wait + Copy + Send + Sync + 'static>(
    rt: &R,
    alloc: Global,
    seated: Seated<W, G, J>,
) -> Option<JoinHandle<()>> {
    let own_rt = *rt;
    match thread::spawn(
        rt,
        move ||
            requires { IsStatic W.row × IsStatic G.row × IsStatic W.Part.row × IsStatic W.Fault.row × IsStatic J.row }
        { serve(own_rt, alloc, seated) },
    ) {
        Ok(handle) => Some(handle),
        Err(_) => None,
    }
}

// The thread's part. It owns all that it uses.
fn serve<W: Work, G: Gate, J: Naming<W>, R: Wait + Copy>(
    rt: R,
    alloc: Global,
    seated: Seated<W, G, J>,
) {
    let Seated {
        work,
        gate,
        jobs,
        job_pass,
        dones,
        done_pass,
    } = seated;
    run_all(rt, alloc, work, gate, jobs, job_pass, dones, done_pass);
}

// Runs jobs until a stop comes, or receiving fails.
fn run_all<W: Work, G: Gate, J: Naming<W>, R: Wait + Copy>(
    rt: R,
    alloc: Global,
    work: Arc<W>,
    gate: Arc<G>,
    jobs: JobReceiver<W, J>,
    mut job_pass: JobPass<W>,
    dones: DoneSender<W, J>,
    mut done_pass: DonePass<W>,
)
    requires jobs { IsSeatAt (receives_on jobs) job_pass × (view job_pass ≡ Some (arc_value work)) }
    requires dones { IsSeatAt (sends_on dones) done_pass × (view done_pass ≡ Some (arc_value work)) }
{
    for _ in rt.forever() {
        let Ok(message) = jobs.recv_as::<FitsJobs<W>, R>(&rt, &mut job_pass) else {
            break;
        };
        let Message::Run(job) = message else {
            break;
        };
        let done = do_job(&rt, alloc, &work, &gate, job);
        hand_in::<W, J, R>(&rt, &work, &dones, &mut done_pass, done);
    }
}

// Sends the result until the channel takes it.
fn hand_in<W: Work, J: Naming<W>, R: Wait>(
    rt: &R,
    work: &Arc<W>,
    dones: &DoneSender<W, J>,
    pass: &mut DonePass<W>,
    done: Done<W::Fault>,
)
    requires seat { IsSeatAt (sends_on dones.now) pass.old × (view pass.old ≡ Some (arc_value work.now)) }
    requires fits { FitsDone (W.meaning (arc_value work.now)) done }
    ensures seat { IsSeatAt (sends_on dones.now) pass.new × (view pass.new ≡ Some (arc_value work.now)) }
{
    let mut next = done;
    for _ in rt.forever() {
        match dones.send_as::<FitsDones<W>, R>(rt, pass, next) {
            Ok(()) => return,
            Err(back) => next = back.into_inner(),
        }
    }
}
