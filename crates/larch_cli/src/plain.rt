//! The top call. The words are looked at first; the command that they name then runs its steps in a fixed order, and
//! the first that fails decides how it ends; what it ends with is reported last. So a refusal costs nothing but its
//! line: words that are not served touch no file, and a source that is refused leaves every file as it was.

ghost use Rattle.std.specs.Prelude.{◌≡◌, map, option_copied, string_bytes};
ghost use Rattle.scripts.specs.Outside.{seen};
ghost use Rattle.larch_cli.specs.Commands.{command_script, has_jobserver, is_served, request_by, request_of, request_script};
ghost use Rattle.larch_cli.specs.Plain.{Answered, CountsTell, FewCalls, Serves, Unchanged, UsageOnly};
ghost use Rattle.larch_cli.specs.Status as spec;
ghost use Rattle.larch_cli.specs.Steps.{OnBoth};

use crate::Status;
use crate::build::build;
use crate::check::check;
use crate::dump::dump;
use crate::generate::generate;
use crate::link::link_files;
use crate::reporting::report;
use crate::run::run_image;
use crate::units::units;
use files::Files;
use make_flags::{Flags, Jobserver, read_flags};
use sinks::Sink;
use std::alloc::Global;
use words::{Command, command_of};

fn has_jobserver(jobserver: Jobserver) -> bool
    ensures { result ≡ has_jobserver jobserver }
{
    match jobserver {
        Jobserver::Absent => false,
        _ => true,
    }
}

// What the command does, but for the line on the error stream.
fn run_command<F: Files, S: Sink>(
    alloc: Global,
    command: Command,
    files: &mut F,
    out: &mut S,
) -> Result<(), Status>
    ensures { OnBoth (command_script command) (F.told files.old) (F.told files.new) (S.told out.old) (S.told out.new) result }
{
    match command {
        Command::Build(sources) => build(alloc, &sources, files, out),
        Command::Check(sources) => check(alloc, &sources, files, out),
        Command::Units(sources, limit) => units(alloc, &sources, &limit, files, out),
        Command::Run(name, steps) => run_image(alloc, &name, steps, files, out),
        Command::Dump(name) => dump(alloc, &name, files, out),
        Command::Link(names, output) => link_files(alloc, &names, &output, files, out),
        Command::Gen(recipe) => generate(alloc, &recipe, files, out),
    }
}

fn serve<F: Files, S: Sink>(
    alloc: Global,
    words: &[String],
    flags: &Flags,
    files: &mut F,
    out: &mut S,
) -> Result<(), Status>
    ensures { OnBoth (request_script (request_by flags.now (map string_bytes words.now))) (F.told files.old) (F.told files.new) (S.told out.old) (S.told out.new) result }
{
    if flags.stop {
        return Ok(());
    }
    match command_of(alloc, has_jobserver(flags.jobserver), words)? {
        None => Err(Status::Usage),
        Some(command) => run_command(alloc, command, files, out),
    }
}

fn status_of(ended: Result<(), Status>) -> Status
    ensures { result ≡ spec.status_of ended }
{
    match ended {
        Ok(()) => Status::Done,
        Err(status) => status,
    }
}

/// Serves a command line, given as the words behind the program's name, over the files and the streams that are handed
/// in, with the text of `MAKEFLAGS` where make has set it. So far `build NAME.larch ..` with `--jobs 1`, `check NAME.larch ..`,
/// `units NAME.larch ..` with `--units N`, `run NAME` with `--steps N`, `dump NAME`, `link NAME..` with `--out NAME` and `gen SEED MODULES` are served, and no others.
/// Where make is run dry nothing is done. It waits for nobody and always returns.
pub fn larch_plain<F: Files, S: Sink>(
    alloc: Global,
    words: &[String],
    makeflags: Option<&str>,
    files: &mut F,
    out: &mut S,
    err: &mut S,
) -> Status
    // The calls and their answers are those of the command's script, and its status is reported.
    ensures serves { Serves (request_script (request_of (option_copied makeflags.entry) (map string_bytes words.now)))
        (seen (F.told files.old) (S.told out.old) (S.told err.old))
        (seen (F.told files.new) (S.told out.new) (S.told err.new)) result }
    // So where no call fails the answer is that of the script over what the files hold.
    ensures answered { Answered (request_script (request_of (option_copied makeflags.entry) (map string_bytes words.now)))
        (seen (F.told files.old) (S.told out.old) (S.told err.old))
        (seen (F.told files.new) (S.told out.new) (S.told err.new)) result }
    ensures usage { UsageOnly (is_served (request_of (option_copied makeflags.entry) (map string_bytes words.now))) result }
    ensures counts { CountsTell
        (seen (F.told files.old) (S.told out.old) (S.told err.old))
        (seen (F.told files.new) (S.told out.new) (S.told err.new)) result }
    ensures unchanged { Unchanged
        (seen (F.told files.old) (S.told out.old) (S.told err.old))
        (seen (F.told files.new) (S.told out.new) (S.told err.new)) result }
    ensures few { FewCalls (request_of (option_copied makeflags.entry) (map string_bytes words.now))
        (seen (F.told files.old) (S.told out.old) (S.told err.old))
        (seen (F.told files.new) (S.told out.new) (S.told err.new)) }
{
    let flags = read_flags(makeflags);
    let ended = serve(alloc, words, &flags, files, out);
    report(alloc, err, status_of(ended))
}
