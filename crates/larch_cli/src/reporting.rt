//! What is said of a status. It is the last thing that a command line does, and may fail like any put: the status is
//! then that fault. Where there is no memory for a line that names something, the line of want of memory is put, which
//! needs none.

ghost use Rattle.std.specs.Prelude.{◌≡◌};
ghost use Rattle.larch_cli.specs.Report.{Reports, Says};
ghost use Rattle.larch_cli.specs.Status.{line_of};

use crate::Status;
use sinks::{Putting, Sink, put_all};
use std::alloc::Global;

fn put_line<S: Sink>(alloc: Global, err: &mut S, line: &[u8], said: Status) -> Status
    requires { line.now ≡ line_of said }
    ensures { Says said (S.told err.old) (S.told err.new) result }
{
    match put_all(alloc, err, line) {
        Putting::Done => said,
        Putting::Failed => Status::SinkFault,
        Putting::Memory => Status::Memory,
    }
}

/// Puts the line of a status on the error stream, and answers the status that the process ends with: that status, or
/// the fault of the put, or want of memory. After a put that failed nothing more is put.
pub fn report<S: Sink>(alloc: Global, err: &mut S, wanted: Status) -> Status
    ensures { Reports wanted (S.told err.old) (S.told err.new) result }
{
    if let Status::SinkFault = wanted {
        return wanted;
    }
    match wanted.line(alloc) {
        Ok(line) => put_line(alloc, err, line.as_slice(), wanted),
        Err(_) => put_line(alloc, err, b"larchc: out of memory\n", Status::Memory),
    }
}
