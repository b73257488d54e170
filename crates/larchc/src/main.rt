//! The program: it makes the real files and streams, hands them to the top call with the words and with what
//! make says, and ends with the status.
//!
//! Everything that it promises is the contract of `larch_plain`. It stands on larch_cli for
//! that, and on files and sinks for the real files and streams.
#![tactic(auto)]

use files::FolderFiles;
use larch_cli::{Status, larch_plain, report};
use sinks::StdSink;
use std::alloc::AllocError;
use std::env::{self, VarError};
use std::io::ErrorKind;
use std::process::ExitCode;

// The words behind the program's name. Where one of them is no text the command line is faulty, and no words are one too.
fn words(rt: &HostRuntime) -> Result<Vec<String>, AllocError> {
    let mut words = Vec::new(rt.alloc());
    let args = match env::args(rt) {
        Ok(args) => args,
        Err(error) if error.kind() == ErrorKind::OutOfMemory => return Err(AllocError),
        Err(_) => return Ok(words),
    };
    for word in args.skip(1) {
        words.push(word)?;
    }
    Ok(words)
}

// The text of `MAKEFLAGS`. One that is no text counts as absent.
fn makeflags(rt: &HostRuntime) -> Result<Option<String>, AllocError> {
    match env::var(rt, "MAKEFLAGS") {
        Ok(text) => Ok(Some(text)),
        Err(VarError::OutOfMemory) => Err(AllocError),
        Err(_) => Ok(None),
    }
}

// The command line with the real files, out and err.
fn serve(rt: &HostRuntime, err: &mut StdSink) -> Result<Status, AllocError> {
    let words = words(rt)?;
    let makeflags = makeflags(rt)?;
    let text = match &makeflags {
        Some(text) => Some(text.as_str()),
        None => None,
    };
    let mut files = FolderFiles::new(*rt);
    let mut out = StdSink::out(rt.stdout());
    Ok(larch_plain(rt.alloc(), &words, text, &mut files, &mut out, err))
}

fn main(rt: HostRuntime) -> ExitCode {
    let mut err = StdSink::err(rt.stderr());
    let status = match serve(&rt, &mut err) {
        Ok(status) => status,
        Err(_) => report(rt.alloc(), &mut err, Status::Memory),
    };
    ExitCode::from(status.number())
}
