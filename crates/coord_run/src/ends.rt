//! The coordinator's ends of the two channels. The channel to the lanes has room for 64 jobs and 64
//! stops, and the one back for 64 results, so that no send waits for long.
ghost use Rattle.std.specs.Prelude.{◌≡◌, Some, IfOk, IfErr};
ghost use Rattle.std.specs.Arc.{arc_value};
ghost use Rattle.crossbeam_channel.specs.Ends.{sends_on, receives_on};
ghost use Rattle.crossbeam_channel.specs.Claims.{view, IsSeatAt};
ghost use Rattle.coord_run.specs.declared.message.Message.TheVariants.{Run};
ghost use Rattle.coord_run.specs.Messages.{FitsJob, FitsDone};

use crate::gate::Gate;
use crate::lane::{DonePass, DoneReceiver, JobPass, JobSender, start_lane};
use crate::message::{Done, Job, Message};
use crate::rules::{DoneRule, FitsDones, FitsJobs, JobRule, Naming};
use crate::work::Work;
use crossbeam_channel::bounded_with;
use std::alloc::{AllocError, Global};
use std::sync::{Arc, Wait};
use std::thread::{JoinHandle, Threads};

/// Jobs that can be out at once.
pub const JOBS: usize = 64;

/// The coordinator's ends, and the lanes that could be started.
pub struct Ends<W: Work, J: Naming<W>> {
    jobs: JobSender<W, J>,
    job_pass: JobPass<W>,
    dones: DoneReceiver<W, J>,
    done_pass: DonePass<W>,
    handles: Vec<JoinHandle<()>>,
    pub work: Arc<W>,
    ghost jobs_seat: { IsSeatAt (sends_on jobs) job_pass },
    ghost jobs_work: { view job_pass ≡ Some (arc_value work) },
    ghost dones_seat: { IsSeatAt (receives_on dones) done_pass },
    ghost dones_work: { view done_pass ≡ Some (arc_value work) },
}

/// The two channels, and as many lanes as could be started, at most so many. One that there is no
/// memory or no thread for is left out.
pub fn open<W: Work, G: Gate, J: Naming<W>, R: Threads + Wait + Copy + Send + Sync + 'static>(
    rt: &R,
    alloc: Global,
    work: &Arc<W>,
    gate: &Arc<G>,
    lanes: u8,
) -> Result<Ends<W, J>, AllocError>
    requires { J.work ≡ Some (arc_value work.now) }
    ensures { IfOk result (λ e. arc_value e.work ≡ arc_value work.now) }
{
    let own_work = Arc::try_clone(work)?;
    let mut handles = Vec::with_capacity(alloc, lanes as usize)?;
    let (jobs, job_end, mut job_pass) = bounded_with::<_, _, JobRule<W, J>, Global>(
        alloc,
        2 * JOBS,
    )?;
    let (done_end, dones, mut done_pass) = bounded_with::<_, _, DoneRule<W, J>, Global>(
        alloc, JOBS,
    )?;
    for lane in 0..lanes {
        if let Some(handle) = start_lane::<W, G, J, R>(
            rt,
            alloc,
            work,
            gate,
            &jobs,
            &mut job_pass,
            &job_end,
            &done_end,
            &mut done_pass,
        ) {
            handles.push_reserved(handle);
        }
    }
    Ok(Ends {
        jobs,
        job_pass,
        dones,
        done_pass,
        handles,
        work: own_work,
    })
}

impl<W: Work, J: Naming<W>> Ends<W, J> {
    /// Stops the lanes, and joins them.
    pub fn close<R: Threads + Wait>(self, rt: &R) {
        let Ends {
            jobs,
            mut job_pass,
            dones,
            done_pass,
            handles,
            work,
        } = self;
        for _lane in 0..handles.len() {
            let _ = jobs.send_as::<FitsJobs<W>, R>(rt, &mut job_pass, Message::Stop);
        }
        for handle in handles {
            handle.join(rt);
        }
        drop((jobs, job_pass, dones, done_pass, work));
    }

    /// Gives a job to the lanes, or back.
    pub fn send<R: Wait>(&mut self, rt: &R, job: Job<W::Part>) -> Result<(), Message<W::Part>>
        requires { FitsJob (W.meaning (arc_value self.old.work)) job }
        ensures work { arc_value self.new.work ≡ arc_value self.old.work }
        ensures back { IfErr result (λ m. m ≡ Run job) }
    {
        match self
            .jobs
            .send_as::<FitsJobs<W>, R>(rt, &mut self.job_pass, Message::Run(job))
        {
            Ok(()) => Ok(()),
            Err(back) => Err(back.into_inner()),
        }
    }

    /// The next result. Where receiving fails, it is tried again.
    pub fn next<R: Wait>(&mut self, rt: &R) -> Done<W::Fault>
        ensures work { arc_value self.new.work ≡ arc_value self.old.work }
        ensures fits { FitsDone (W.meaning (arc_value self.old.work)) result }
    {
        for _ in rt.forever() {
            if let Ok(done) = self
                .dones
                .recv_as::<FitsDones<W>, R>(rt, &mut self.done_pass)
            {
                return done;
            }
        }
        unreachable!()
    }
}
