//! How a command line ends: one status for each kind of end, with what its line has to name. The number and the line are functions of
//! the status alone, and both are part of the contract of the program.

ghost use Rattle.std.specs.Prelude.{◌≡◌, ◌++◌, IfOk, codes, string_bytes};
ghost use Rattle.std.specs.Fmt.{decimal};
ghost use Rattle.lar_source.specs.Diagnostic.{line_of as diagnostic_line};
ghost use Rattle.larch_cli.specs.Status.{kind_word, line_of, link_line, number_of, text_of};

use lar_bytes::{Bytes, Text};
use lar_source::Diag;
use object_format::BadFile;
use stack_vm::Kind;
use std::alloc::{AllocError, Global};
use symbol_link::LinkFault;

/// How a command ended.
#[derive(Debug, Drop)]
pub enum Status {
    /// It is done.
    Done,
    /// The sources have this first fault.
    Diagnostic(Diag),
    /// The words are none that are served.
    Usage,
    /// The file with this name, which the command reads, is not there.
    Absent(Text),
    /// The file with this name could not be read, or not be written.
    FileFault(Text),
    /// A put on one of the streams failed.
    SinkFault,
    /// There was no memory.
    Memory,
    /// The file with this name is no valid image, by this first fault.
    BadFile(Text, BadFile),
    /// The objects cannot be linked, for this first reason.
    LinkFault(LinkFault),
    /// The run trapped for this reason, in this function at this offset of its code.
    Trapped(Kind, u32, u32),
    /// The run did not end within its steps.
    OutOfSteps,
    /// The sources are none that can be built so far: they are not one file in the thin form.
    Unsupported,
}

fn kind_word(kind: Kind) -> &'static str
    ensures { result.now ≡ kind_word kind }
{
    match kind {
        Kind::Division => "division",
        Kind::Overflow => "overflow",
        Kind::Depth => "depth",
        Kind::Trap => "trap",
    }
}

fn bad_file_line(alloc: Global, name: &str, at: u64, what: &str) -> Result<String, AllocError>
    ensures { IfOk result (λ line. string_bytes line ≡ codes "larchc: " ++ (name.now ++ (codes ": bad file at " ++ (decimal at ++ (codes ": " ++ (what.now ++ codes "\n")))))) }
{
    format!(in alloc; "larchc: {name}: bad file at {at}: {what}\n")
}

fn twice_line(alloc: Global, symbol: &str, first: u32, second: u32) -> Result<String, AllocError>
    ensures { IfOk result (λ line. string_bytes line ≡ codes "larchc: link: " ++ (symbol.now ++ (codes " defined in " ++ (decimal first ++ (codes " and " ++ (decimal second ++ codes "\n")))))) }
{
    format!(in alloc; "larchc: link: {symbol} defined in {first} and {second}\n")
}

fn undefined_line(alloc: Global, symbol: &str, object: u32) -> Result<String, AllocError>
    ensures { IfOk result (λ line. string_bytes line ≡ codes "larchc: link: " ++ (symbol.now ++ (codes " undefined in " ++ (decimal object ++ codes "\n")))) }
{
    format!(in alloc; "larchc: link: {symbol} undefined in {object}\n")
}

fn link_line(alloc: Global, fault: &LinkFault) -> Result<String, AllocError>
    ensures { IfOk result (λ line. string_bytes line ≡ link_line fault.now) }
{
    match fault {
        LinkFault::Twice {
            symbol,
            first,
            second,
        } => twice_line(alloc, symbol.as_str(), *first, *second),
        LinkFault::Undefined { symbol, object } => {
            undefined_line(alloc, symbol.as_str(), *object)
        }
        LinkFault::NoEntry => format!(in alloc; "larchc: link: no entry\n"),
        LinkFault::TooLarge => format!(in alloc; "larchc: link: image over 67108864 bytes\n"),
    }
}

fn trap_line(alloc: Global, kind: &str, function: u32, offset: u32) -> Result<String, AllocError>
    ensures { IfOk result (λ line. string_bytes line ≡ codes "larchc: trap " ++ (kind.now ++ (codes " at " ++ (decimal function ++ (codes ":" ++ (decimal offset ++ codes "\n")))))) }
{
    format!(in alloc; "larchc: trap {kind} at {function}:{offset}\n")
}

fn diagnostic_line(alloc: Global, diag: &Diag) -> Result<Bytes, AllocError>
    ensures { IfOk result (λ line. line ≡ diagnostic_line diag.now) }
{
    let mut line = Bytes::new(alloc);
    diag.write(alloc, &mut line)?;
    Ok(line)
}

impl Status {
    /// The number with which the process ends.
    pub fn number(&self) -> u8
        ensures { result ≡ number_of self.now }
    {
        match self {
            Status::Done => 0,
            Status::Diagnostic(_) => 1,
            Status::Usage => 2,
            Status::Absent(_) => 3,
            Status::FileFault(_) => 4,
            Status::SinkFault => 6,
            Status::Memory => 8,
            Status::BadFile(_, _) => 9,
            Status::LinkFault(_) => 10,
            Status::Trapped(_, _, _) => 11,
            Status::OutOfSteps => 12,
            Status::Unsupported => 13,
        }
    }

    // The line, but for a diagnostic's.
    fn text(&self, alloc: Global) -> Result<String, AllocError>
        ensures { IfOk result (λ line. string_bytes line ≡ text_of self.now) }
    {
        match self {
            Status::Done => Ok(String::new(alloc)),
            Status::Diagnostic(_) => Ok(String::new(alloc)),
            Status::SinkFault => Ok(String::new(alloc)),
            Status::Usage => format!(in alloc; "larchc: usage\n"),
            Status::Absent(name) => {
                let name = name.as_str();
                format!(in alloc; "larchc: {name}: not found\n")
            }
            Status::FileFault(name) => {
                let name = name.as_str();
                format!(in alloc; "larchc: {name}: file fault\n")
            }
            Status::Memory => format!(in alloc; "larchc: out of memory\n"),
            Status::BadFile(name, fault) => {
                bad_file_line(alloc, name.as_str(), fault.at, fault.what.word())
            }
            Status::LinkFault(fault) => link_line(alloc, fault),
            Status::Trapped(kind, function, offset) => {
                trap_line(alloc, kind_word(*kind), *function, *offset)
            }
            Status::OutOfSteps => format!(in alloc; "larchc: out of steps\n"),
            Status::Unsupported => format!(in alloc; "larchc: unsupported input\n"),
        }
    }

    fn text_bytes(&self, alloc: Global) -> Result<Bytes, AllocError>
        ensures { IfOk result (λ line. line ≡ text_of self.now) }
    {
        let text = self.text(alloc)?;
        Bytes::copied(alloc, text.as_bytes())
    }

    /// Its line for the error stream, which is empty where there is nothing to say or no stream to say it on.
    pub fn line(&self, alloc: Global) -> Result<Bytes, AllocError>
        ensures { IfOk result (λ line. line ≡ line_of self.now) }
    {
        match self {
            Status::Diagnostic(diag) => diagnostic_line(alloc, diag),
            _ => self.text_bytes(alloc),
        }
    }
}

impl From<AllocError> for Status {
    ghost use Rattle.std.specs.Prelude.{◌≡◌};
    ghost use Rattle.larch_cli.specs.declared.status.Status.TheVariants.{Memory};

    ghost from_gives = { λ _ status. status ≡ Memory };

    fn from(_: AllocError) -> Status {
        Status::Memory
    }
}
