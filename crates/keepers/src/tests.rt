use super::*;
use lar_bytes::{Bytes, Text};
use lar_source::File;
use std::alloc::{AllocError, Global};
use std::os::unix::fs::symlink;
use std::test::Fail;
use std::{fs, io, rt};

// A call on a keeper, its name and its bytes, and the answer that is wanted, as text.
type Step = (&'static str, &'static str, &'static str, &'static str);

// At most four bytes of what a name holds.
fn loaded<K: Keeper>(alloc: Global, keeper: &mut K, name: &str) -> Result<Vec<u8>, AllocError> {
    match keeper.load(alloc, name, 4)? {
        Loaded::Bytes(bytes) => Ok(bytes.into_vec()),
        Loaded::Absent => b"absent".to_vec(alloc),
        Loaded::Failed => b"failed".to_vec(alloc),
    }
}

// The names, each with a blank behind it.
fn named<K: Keeper>(alloc: Global, keeper: &mut K) -> Result<Vec<u8>, AllocError> {
    let Named::Names(names) = keeper.names(alloc)? else {
        return b"failed".to_vec(alloc);
    };
    let mut all = Vec::new(alloc);
    for name in &names {
        all.extend_from_slice(name.as_bytes())?;
        all.push(b' ')?;
    }
    Ok(all)
}

fn saved(alloc: Global, answer: Saved) -> Result<Vec<u8>, AllocError> {
    match answer {
        Saved::Done => b"done".to_vec(alloc),
        Saved::Failed => b"failed".to_vec(alloc),
        Saved::Memory => b"memory".to_vec(alloc),
    }
}

fn answer<K: Keeper>(alloc: Global, keeper: &mut K, step: &Step) -> Result<Vec<u8>, AllocError> {
    match step.0 {
        "load" => loaded(alloc, keeper, step.1),
        "save" => saved(alloc, keeper.save(alloc, step.1, step.2.as_bytes())),
        "remove" => saved(alloc, keeper.remove(step.1)),
        _ => named(alloc, keeper),
    }
}

// The number of the first step with another answer than the one that is wanted, or how many steps there are.
fn steps_taken<K: Keeper>(
    alloc: Global,
    keeper: &mut K,
    steps: &[Step],
) -> Result<usize, AllocError> {
    for (number, step) in steps.iter().enumerate() {
        if answer(alloc, keeper, step)?.as_slice() != step.3.as_bytes() {
            return Ok(number);
        }
    }
    Ok(steps.len())
}

// A folder of this name with these files in it: what a program that was killed may leave, what others may put there, and a device
// that is full in the place of the file beside.
fn with_other_things<R: rt::Files + Alloc>(rt: &R) -> io::Result<()> {
    let _ = fs::remove_dir_all(rt, "mixed.test");
    fs::create_dir_all(rt, "mixed.test/folder")?;
    fs::write(rt, "mixed.test/.part", "left")?;
    fs::write(rt, "mixed.test/foreign", "there")
}

#[test]
fn a_folder_is_made_and_keeps_what_was_saved(rt: HostRuntime) -> Result<(), Fail> {
    let alloc = rt.alloc();
    let _ = fs::remove_dir_all(&rt, "made.test");
    let mut keeper = FolderKeeper::new(rt.clone()?, alloc, "made.test")?;
    let steps = [
        ("load", "a", "", "absent"),
        ("names", "", "", ""),
        ("remove", "a", "", "done"),
        ("save", "b", "first", "done"),
        ("load", "b", "", "firs"),
        ("save", "a", "two", "done"),
        ("save", "b", "3", "done"),
        ("load", "b", "", "3"),
        ("names", "", "", "a b "),
        ("remove", "a", "", "done"),
        ("names", "", "", "b "),
    ];
    assert_eq!(rt; steps_taken(alloc, &mut keeper, &steps)?, steps.len());
    fs::remove_dir_all(&rt, "made.test")?;
    Ok(())
}

#[test]
fn a_folder_with_other_things_in_it(rt: HostRuntime) -> Result<(), Fail> {
    let alloc = rt.alloc();
    with_other_things(&rt)?;
    let mut keeper = FolderKeeper::new(rt.clone()?, alloc, "mixed.test")?;
    let steps = [
        ("names", "", "", "folder foreign "),
        ("load", "folder", "", "failed"),
        ("save", "torn", "whole", "done"),
        ("save", "folder", "x", "failed"),
        ("load", "torn", "", "whol"),
    ];
    assert_eq!(rt; steps_taken(alloc, &mut keeper, &steps)?, steps.len());
    assert!(rt; !fs::exists(&rt, "mixed.test/.part")?);
    symlink(&rt, "/dev/full", "mixed.test/.part")?;
    let full = [
        ("save", "torn", "more", "failed"),
        ("load", "torn", "", "whol"),
        ("names", "", "", "folder foreign torn "),
    ];
    assert_eq!(rt; steps_taken(alloc, &mut keeper, &full)?, full.len());
    assert!(rt; !fs::exists(&rt, "mixed.test/.part")?);
    fs::remove_dir_all(&rt, "mixed.test")?;
    Ok(())
}

#[test]
fn a_file_in_the_folders_way(rt: HostRuntime) -> Result<(), Fail> {
    let alloc = rt.alloc();
    fs::write(&rt, "plain.test", "no folder")?;
    let mut keeper = FolderKeeper::new(rt.clone()?, alloc, "plain.test")?;
    let steps = [
        ("load", "a", "", "failed"),
        ("names", "", "", "failed"),
        ("save", "a", "x", "failed"),
        ("remove", "a", "", "failed"),
    ];
    assert_eq!(rt; steps_taken(alloc, &mut keeper, &steps)?, steps.len());
    fs::remove_file(&rt, "plain.test")?;
    Ok(())
}

#[test]
fn a_keeper_in_memory_fails_where_it_is_told(rt: HostRuntime) -> Result<(), Fail> {
    let alloc = rt.alloc();
    let file = File {
        name: Text::copied(alloc, "b")?,
        bytes: Bytes::copied(alloc, b"five5")?,
    };
    let mut keeper = MemoryKeeper::new(alloc, &[file], &[1, 3, 5, 7, 9])?;
    let steps = [
        ("load", "b", "", "five"),
        ("load", "b", "", "failed"),
        ("save", "a", "new", "done"),
        ("save", "a", "other", "failed"),
        ("names", "", "", "a b "),
        ("names", "", "", "failed"),
    ];
    assert_eq!(rt; steps_taken(alloc, &mut keeper, &steps)?, steps.len());
    keeper.leaving(2);
    let leaving = [
        ("remove", "b", "", "done"),
        ("save", "c", "other", "failed"),
        ("load", "c", "", "ot"),
        ("remove", "c", "", "failed"),
        ("names", "", "", "a c "),
    ];
    assert_eq!(rt; steps_taken(alloc, &mut keeper, &leaving)?, leaving.len());
    assert_eq!(rt; keeper.held("a").ok_or("no a")?, b"new".as_slice());
    Ok(())
}
