//! The rules of the two channels, the one to the lanes and the one back. A pass on a channel knows the
//! work that the messages are about, the same in all passes; each message in the channel fits it. So
//! whoever receives learns that a job's part and a result's outcome are those of the work's definition,
//! from what its own pass knows. `drive` picks the work when it makes the channels; no step changes it.
ghost use Rattle.coord_run.specs.Messages.{FitsDone, FitsMessage};
ghost use Rattle.coord_run.specs.Rules.{Kept, Fitting};

use crate::message::{Done, Message};
use crate::work::Work;
use crossbeam_channel::protocol::{Lesson, Outcome, Protocol, Split};
use std::marker::{Brand, PhantomData};

/// Which work the messages are about. Each call picks it.
pub trait Naming<W>: Send + Sync + 'static {
    ghost use Rattle.std.specs.Prelude.{Option};

    ghost work: { Option W };
}

impl<W> Naming<W> for Brand {
    ghost use Rattle.std.specs.Prelude.{None};

    ghost work = { None };
}

/// The rule of the channel to the lanes.
pub struct JobRule<W, J> {
    of: PhantomData<(W, J)>,
}

impl<W: Work, J: Naming<W>> Protocol<Message<W::Part>, Option<W>> for JobRule<W, J> {
    ghost holds = { λ items views. Kept (λ w x. FitsMessage (W.meaning w) x) items views };

    ghost first = { J.work };
}

/// The rule of the channel back.
pub struct DoneRule<W, J> {
    of: PhantomData<(W, J)>,
}

impl<W: Work, J: Naming<W>> Protocol<Done<W::Fault>, Option<W>> for DoneRule<W, J> {
    ghost holds = { λ items views. Kept (λ w x. FitsDone (W.meaning w) x) items views };

    ghost first = { J.work };
}

/// What a step with a job tells.
pub struct FitsJobs<W> {
    of: PhantomData<W>,
}

impl<W: Work> Outcome<Message<W::Part>, Option<W>> for FitsJobs<W> {
    ghost then = { Fitting (λ w x. FitsMessage (W.meaning w) x) };
}

impl<W: Work> Lesson<Message<W::Part>, Option<W>> for FitsJobs<W> {
    ghost fact = { λ v items. Unit {0} };
}

/// What a step with a result tells.
pub struct FitsDones<W> {
    of: PhantomData<W>,
}

impl<W: Work> Outcome<Done<W::Fault>, Option<W>> for FitsDones<W> {
    ghost then = { Fitting (λ w x. FitsDone (W.meaning w) x) };
}

impl<W: Work> Lesson<Done<W::Fault>, Option<W>> for FitsDones<W> {
    ghost fact = { λ v items. Unit {0} };
}

/// A pass is split into two that know the same.
pub struct Same;

impl<V> Split<V> for Same {
    ghost left = { λ v. v };

    ghost right = { λ v. v };
}
