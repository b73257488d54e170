//! The command that lists what an object or an image holds.

ghost use Rattle.larch_cli.specs.Commands.{dump_script};
ghost use Rattle.larch_cli.specs.Steps.{OnBoth};

use crate::Status;
use crate::loading::{MOST_ASKED, judge_listed};
use crate::sending::put_listing;
use crate::steps::read_file;
use files::Files;
use lar_bytes::Text;
use sinks::Sink;
use std::alloc::Global;

/// Lists the object or image with this name.
pub(crate) fn dump<F: Files, S: Sink>(
    alloc: Global,
    name: &Text,
    files: &mut F,
    out: &mut S,
) -> Result<(), Status>
    ensures { OnBoth (dump_script name.now) (F.told files.old) (F.told files.new) (S.told out.old) (S.told out.new) result }
{
    let bytes = read_file(alloc, files, name.as_str(), MOST_ASKED)?;
    let listed = judge_listed(alloc, name, bytes)?;
    put_listing(alloc, out, &listed)
}
