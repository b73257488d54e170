use super::*;
use lar_bytes::{Bytes, Text};
use lar_source::File;
use std::alloc::{AllocError, Global};
use std::test::Fail;

// The first bytes of a file, or how it could not be read.
fn first_of<F: Files>(alloc: Global, files: &mut F, name: &str) -> Result<Vec<u8>, AllocError> {
    match files.read(alloc, name, 3)? {
        Read::Bytes(bytes) => Ok(bytes.into_vec()),
        Read::Absent => b"absent".to_vec(alloc),
        Read::Failed => b"failed".to_vec(alloc),
    }
}

#[test]
fn a_folder_gives_back_what_was_written(rt: HostRuntime) -> Result<(), Fail> {
    let alloc = rt.alloc();
    let mut files = FolderFiles::new(rt);
    for bytes in [b"abc".as_slice(), b"de".as_slice(), b"fghi".as_slice()] {
        assert_eq!(rt; files.write(alloc, "files.test", bytes), Wrote::Done);
        let held = first_of(alloc, &mut files, "files.test")?;
        assert_eq!(rt; held.as_slice(), &bytes[..bytes.len().min(3)]);
    }
    let cases = [
        (".files.test.part", "absent"),
        ("files.none", "absent"),
        (".", "failed"),
    ];
    for (name, wanted) in cases {
        let read = first_of(alloc, &mut files, name)?;
        assert_eq!(rt; read.as_slice(), wanted.as_bytes(), "at {name}");
    }
    assert_eq!(rt; files.write(alloc, ".", b""), Wrote::Failed);
    Ok(())
}

#[test]
fn files_in_memory_fail_where_they_are_told(rt: HostRuntime) -> Result<(), Fail> {
    let alloc = rt.alloc();
    let file = File {
        name: Text::copied(alloc, "a")?,
        bytes: Bytes::copied(alloc, b"abcd")?,
    };
    let mut files = MemoryFiles::new(alloc, &[file], &[1, 3])?;
    for wanted in ["abc", "failed"] {
        let read = first_of(alloc, &mut files, "a")?;
        assert_eq!(rt; read.as_slice(), wanted.as_bytes());
    }
    assert_eq!(rt; files.write(alloc, "b", b"x"), Wrote::Done);
    assert_eq!(rt; files.write(alloc, "b", b"y"), Wrote::Failed);
    assert_eq!(rt; files.held("b").ok_or("no b")?, b"x".as_slice());
    assert!(rt; files.held("c").is_none());
    Ok(())
}
