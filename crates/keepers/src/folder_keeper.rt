//! A keeper over a folder: a few calls of std for each method. What was answered is noted.

ghost use Rattle.std.specs.Prelude.{◌≡◌, ◌≢◌, ◌≤◌, length, [], IfOk};
ghost use Rattle.keepers.specs.KeeperNoted.{bytes_of_all};
ghost use Rattle.keepers.specs.KeeperState.{AreInOrder, IsOrderedAnswer, IsShort};

use crate::keeper_journal::KeeperJournal;
use crate::noting::{with_load, with_names, with_remove, with_save};
use crate::{Keeper, Loaded, Named, Saved};
use lar_bytes::Bytes;
use std::alloc::{AllocError, Global};
use std::collections::BTreeSet;
use std::fs::OpenFile;
use std::io::{ErrorKind, Read};
use std::marker::Model;
use std::{fs, io, rt};

/// The name of the file beside: no record can have it, since it is no 64 digits.
const BESIDE: &str = ".part";

/// The most bytes of a file's name.
const MAX_NAME: usize = 255;

/// The files of one folder, by their names in it. Contracts see the calls on it with their answers, and nothing of what the names
/// hold.
///
/// A folder that is not there holds no name, and the first save makes it. A save goes to the file beside, `.part`, which then takes
/// the name: so a program that is killed leaves that one file at most, and the next save goes over it. Where the file beside cannot
/// be written, it is removed and the save fails. Where it is gone before it takes the name, another program has taken it for a name
/// of its own, and the bytes are written under the name at once. No call waits for the disk.
///
/// Names that are no text, and the file beside, are left out of the names. The folder is to hold files with plain names.
#[derive(Drop)]
pub struct FolderKeeper<R: rt::Files + Drop> {
    rt: R,
    folder: String,
    beside: String,
    path: String,
    journal: KeeperJournal,
}

impl<R: rt::Files + Drop> Model for FolderKeeper<R> {
    ghost use Rattle.std.specs.Prelude.{List};
    ghost use Rattle.keepers.specs.KeeperCalls.{KeeperCall, coded_calls};

    ghost Value = { List KeeperCall };

    ghost coded = { coded_calls };

    ghost view = { λ k. k.journal.calls };
}

impl<R: rt::Files + Drop> FolderKeeper<R> {
    /// The files of this folder, which may not be there yet. Paths that begin with no slash go from the current folder.
    pub fn new(rt: R, alloc: Global, folder: &str) -> Result<FolderKeeper<R>, AllocError>
        ensures { IfOk result (λ keeper. keeper ≡ []) }
    {
        let folder = if folder.is_empty() { "." } else { folder };
        let room = folder.len().saturating_add(MAX_NAME + 1);
        let folder = folder.to_string(alloc)?;
        let mut beside = String::with_capacity(alloc, room)?;
        set_path(&mut beside, folder.as_str(), BESIDE)?;
        let path = String::with_capacity(alloc, room)?;
        Ok(FolderKeeper {
            rt,
            folder,
            beside,
            path,
            journal: KeeperJournal::new(),
        })
    }
}

/// The path of a name in a folder, in the place of the path before. It takes no memory where the name is no longer than a file's
/// may be.
fn set_path(path: &mut String, folder: &str, name: &str) -> Result<(), AllocError> {
    path.clear();
    path.push_str(folder)?;
    path.push('/')?;
    path.push_str(name)
}

/// Room for the bytes of a file, for at most `most` of them, and for the look at its end.
fn room_for(len: u64, most: u64) -> usize {
    len.min(most).saturating_add(1) as usize
}

fn read_first<R: rt::Files>(rt: &R, alloc: Global, path: &str, most: u64) -> io::Result<Vec<u8>>
    ensures { IfOk result (λ bytes. length bytes.items ≤ most) }
{
    let file = fs::open(rt, path)?;
    let len = file.metadata()?.len();
    let mut bytes = Vec::with_capacity(alloc, room_for(len, most))?;
    file.take(most).read_to_end(&mut bytes)?;
    bytes.truncate(most as usize);
    Ok(bytes)
}

fn look<R: rt::Files>(rt: &R, alloc: Global, path: &str, most: u64) -> Result<Loaded, AllocError>
    ensures { IfOk result (λ loaded. IsShort most loaded) }
{
    match read_first(rt, alloc, path, most) {
        Ok(bytes) => Ok(Loaded::Bytes(Bytes::from_vec(bytes))),
        Err(error) => match error.kind() {
            ErrorKind::NotFound => Ok(Loaded::Absent),
            ErrorKind::OutOfMemory => Err(AllocError),
            _ => Ok(Loaded::Failed),
        },
    }
}

/// Writes the file beside, in a folder that is made where it is not there.
fn write_beside<R: rt::Files>(rt: &R, folder: &str, beside: &str, bytes: &[u8]) -> io::Result<()> {
    match fs::write(rt, beside, bytes) {
        Ok(()) => Ok(()),
        Err(error) => match error.kind() {
            ErrorKind::NotFound => {
                fs::create_dir_all(rt, folder)?;
                fs::write(rt, beside, bytes)
            }
            _ => Err(error),
        },
    }
}

/// Gives the file beside its name. Where another program has taken it, the bytes are written under the name.
fn name_beside<R: rt::Files>(rt: &R, beside: &str, path: &str, bytes: &[u8]) -> io::Result<()> {
    match fs::rename(rt, beside, path) {
        Ok(()) => Ok(()),
        Err(error) => match error.kind() {
            ErrorKind::NotFound => fs::write(rt, path, bytes),
            _ => Err(error),
        },
    }
}

fn write_whole<R: rt::Files>(
    rt: &R,
    folder: &str,
    beside: &str,
    path: &str,
    bytes: &[u8],
) -> io::Result<()> {
    write_beside(rt, folder, beside, bytes)?;
    name_beside(rt, beside, path, bytes)
}

fn put<R: rt::Files>(rt: &R, folder: &str, beside: &str, path: &str, bytes: &[u8]) -> Saved {
    if write_whole(rt, folder, beside, path, bytes).is_ok() {
        return Saved::Done;
    }
    let _ = fs::remove_file(rt, beside);
    Saved::Failed
}

fn forget<R: rt::Files>(rt: &R, path: &str) -> Saved
    ensures { result ≢ Saved.Memory }
{
    match fs::remove_file(rt, path) {
        Ok(()) => Saved::Done,
        Err(error) => match error.kind() {
            ErrorKind::NotFound => Saved::Done,
            _ => Saved::Failed,
        },
    }
}

/// The names in a folder, but for the file beside and those that are no text.
fn names_in<R: rt::Files + AllocGlobal + Clone + Drop>(
    rt: &R,
    alloc: Global,
    folder: &str,
) -> io::Result<BTreeSet<String>> {
    let mut names = BTreeSet::new(alloc);
    for entry in fs::read_dir(rt, folder)? {
        match entry {
            Ok(entry) => {
                if entry.file_name() != BESIDE {
                    names.insert(entry.file_name().to_string(alloc)?)?;
                }
            }
            Err(error) => {
                if error.kind() != ErrorKind::InvalidFilename {
                    return Err(error);
                }
            }
        }
    }
    Ok(names)
}

/// The names of a set, which are in order.
fn in_order(alloc: Global, names: BTreeSet<String>) -> Result<Vec<String>, AllocError>
    ensures { IfOk result (λ list. AreInOrder (bytes_of_all list.items)) }
{
    let mut list = Vec::with_capacity(alloc, names.len())?;
    for name in names {
        list.push(name)?;
    }
    Ok(list)
}

fn list<R: rt::Files + AllocGlobal + Clone + Drop>(
    rt: &R,
    alloc: Global,
    folder: &str,
) -> Result<Named, AllocError>
    ensures { IfOk result IsOrderedAnswer }
{
    match names_in(rt, alloc, folder) {
        Ok(names) => Ok(Named::Names(in_order(alloc, names)?)),
        Err(error) => match error.kind() {
            ErrorKind::NotFound => Ok(Named::Names(Vec::new(alloc))),
            ErrorKind::OutOfMemory => Err(AllocError),
            _ => Ok(Named::Failed),
        },
    }
}

impl<R: rt::Files + AllocGlobal + Clone + Drop> Keeper for FolderKeeper<R> {
    ghost use Rattle.std.specs.Prelude.{None};

    ghost told = { λ keeper. record { held = None; calls = keeper } };

    fn load(&mut self, alloc: Global, name: &str, most: u64) -> Result<Loaded, AllocError> {
        let answer = match set_path(&mut self.path, self.folder.as_str(), name) {
            Ok(()) => look(&self.rt, alloc, self.path.as_str(), most),
            Err(error) => Err(error),
        };
        self.journal = with_load(&self.journal, name, most, &answer);
        answer
    }

    fn save(&mut self, _alloc: Global, name: &str, bytes: &[u8]) -> Saved {
        let answer = match set_path(&mut self.path, self.folder.as_str(), name) {
            Ok(()) => put(
                &self.rt,
                self.folder.as_str(),
                self.beside.as_str(),
                self.path.as_str(),
                bytes,
            ),
            Err(_) => Saved::Memory,
        };
        self.journal = with_save(&self.journal, name, bytes, answer);
        answer
    }

    fn remove(&mut self, name: &str) -> Saved {
        let answer = if name.len() > MAX_NAME {
            Saved::Failed
        } else {
            match set_path(&mut self.path, self.folder.as_str(), name) {
                Ok(()) => forget(&self.rt, self.path.as_str()),
                Err(_) => Saved::Failed,
            }
        };
        self.journal = with_remove(&self.journal, name, answer);
        answer
    }

    fn names(&mut self, alloc: Global) -> Result<Named, AllocError> {
        let answer = list(&self.rt, alloc, self.folder.as_str());
        self.journal = with_names(&self.journal, &answer);
        answer
    }
}
