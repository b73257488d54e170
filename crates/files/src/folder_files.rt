//! Files of the current folder: a few calls of std for each method. What was answered is noted, and a name is never
//! seen half written.

ghost use Rattle.std.specs.Prelude.{◌≡◌, ◌≤◌, length, [], IfOk};
ghost use Rattle.files.specs.FilesState.{IsShort};

use crate::noting::{with_read, with_write};
use crate::{Files, Read, Wrote};
use journal::Journal;
use lar_bytes::Bytes;
use std::alloc::{AllocError, Global};
use std::io::{ErrorKind, Read as _};
use std::marker::Model;
use std::{fs, io, rt};

/// The files of the current folder. Contracts see the calls on it with their answers, and nothing of what the names
/// hold.
///
/// A name that the system does not find is absent; a folder in a file's place and whatever else keeps a file from
/// being read are faults. A write goes to a file beside, `.NAME.part`, which then takes the name: so no name is ever
/// seen with half of its bytes, whatever ends the program in between. Where that fails the file beside is removed.
#[derive(Drop)]
pub struct FolderFiles<R: rt::Files + Drop> {
    rt: R,
    journal: Journal,
}

impl<R: rt::Files + Drop> Model for FolderFiles<R> {
    ghost use Rattle.std.specs.Prelude.{List};
    ghost use Rattle.journal.specs.Journal.{Call, coded_calls};

    ghost Value = { List Call };

    ghost coded = { coded_calls };

    ghost view = { λ f. f.journal.calls };
}

impl<R: rt::Files + Drop> FolderFiles<R> {
    /// The files that the runtime reaches by plain names.
    pub fn new(rt: R) -> FolderFiles<R>
        ensures { result ≡ [] }
    {
        FolderFiles {
            rt,
            journal: Journal::new(),
        }
    }
}

fn read_first<R: rt::Files>(rt: &R, alloc: Global, name: &str, most: u64) -> io::Result<Vec<u8>>
    ensures { IfOk result (λ bytes. length bytes.items ≤ most) }
{
    let file = fs::open(rt, name)?;
    let mut bytes = Vec::new(alloc);
    file.take(most).read_to_end(&mut bytes)?;
    bytes.truncate(most as usize);
    Ok(bytes)
}

fn look<R: rt::Files>(rt: &R, alloc: Global, name: &str, most: u64) -> Result<Read, AllocError>
    ensures { IfOk result (λ read. IsShort most read) }
{
    match read_first(rt, alloc, name, most) {
        Ok(bytes) => Ok(Read::Bytes(Bytes::from_vec(bytes))),
        Err(error) => match error.kind() {
            ErrorKind::NotFound => Ok(Read::Absent),
            ErrorKind::OutOfMemory => Err(AllocError),
            _ => Ok(Read::Failed),
        },
    }
}

fn write_whole<R: rt::Files>(rt: &R, name: &str, beside: &str, bytes: &[u8]) -> io::Result<()> {
    fs::write(rt, beside, bytes)?;
    fs::rename(rt, beside, name)
}

fn write_beside<R: rt::Files>(rt: &R, alloc: Global, name: &str, bytes: &[u8]) -> Wrote {
    let Ok(beside) = format!(in alloc; ".{name}.part") else {
        return Wrote::Memory;
    };
    if write_whole(rt, name, beside.as_str(), bytes).is_ok() {
        return Wrote::Done;
    }
    let _ = fs::remove_file(rt, beside.as_str());
    Wrote::Failed
}

impl<R: rt::Files + Drop> Files for FolderFiles<R> {
    ghost use Rattle.std.specs.Prelude.{None};

    ghost told = { λ files. record { held = None; calls = files } };

    fn read(&mut self, alloc: Global, name: &str, most: u64) -> Result<Read, AllocError> {
        let answer = look(&self.rt, alloc, name, most);
        self.journal = with_read(&self.journal, name, most, &answer);
        answer
    }

    fn write(&mut self, alloc: Global, name: &str, bytes: &[u8]) -> Wrote {
        let answer = write_beside(&self.rt, alloc, name, bytes);
        self.journal = with_write(&self.journal, name, bytes, answer);
        answer
    }
}
