//! The command that runs an image. All that can be refused is refused before the first step: the image is read,
//! validated and given its memory, and from then on only the program's own end, its steps and its sink decide.

ghost use Rattle.std.specs.Prelude.{◌≡◌, true};
ghost use Rattle.stack_vm.specs.Acts.{runs_of};
ghost use Rattle.larch_cli.specs.Commands.{end_gives, printed, run_script};
ghost use Rattle.larch_cli.specs.Steps.{OnBoth, OnOut};

use crate::Status;
use crate::loading::{MOST_ASKED, judge_image};
use crate::steps::read_file;
use files::Files;
use lar_bytes::Text;
use sinks::Sink;
use stack_vm::{End, Valid, run};
use std::alloc::Global;

// How the command ends where the machine ends so.
fn status_of_end(end: End) -> Result<(), Status>
    ensures { result ≡ end_gives end }
{
    match end {
        End::Ended => Ok(()),
        End::Trapped {
            kind,
            function,
            offset,
        } => Err(Status::Trapped(kind, function, offset)),
        End::OutOfSteps => Err(Status::OutOfSteps),
        End::WriteFault => Err(Status::SinkFault),
        End::Memory => Err(Status::Memory),
    }
}

fn print_run<S: Sink>(
    alloc: Global,
    valid: &mut Valid,
    steps: u64,
    out: &mut S,
) -> Result<(), Status>
    requires { valid.old.reserved ≡ true }
    ensures { OnOut (printed (runs_of valid.old.image steps)) (S.told out.old) (S.told out.new) result }
{
    let end = run(alloc, valid, steps, out);
    status_of_end(end)
}

/// Runs the image with this name for at most so many steps. What it prints goes to `out` while it runs.
pub(crate) fn run_image<F: Files, S: Sink>(
    alloc: Global,
    name: &Text,
    steps: u64,
    files: &mut F,
    out: &mut S,
) -> Result<(), Status>
    ensures { OnBoth (run_script name.now steps) (F.told files.old) (F.told files.new) (S.told out.old) (S.told out.new) result }
{
    let bytes = read_file(alloc, files, name.as_str(), MOST_ASKED)?;
    let mut valid = judge_image(alloc, name, bytes)?;
    valid.reserve(alloc)?;
    print_run(alloc, &mut valid, steps, out)
}
