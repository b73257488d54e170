use super::*;
use files::MemoryFiles;
use lar_bytes::{Bytes, Text};
use lar_tree::File;
use sinks::{MemorySink, Put, Sink};
use std::alloc::{AllocError, Global};
use std::process::Abort;
use std::test::Fail;

// `fn main() { print(7); }`: a function of four bytes, PUSH8 7, PRINT and RET.
pub(crate) const SEVEN: [u8; 25] = [
    0x4c, 0x52, 0x50, 0x58, 0, 2, 0, 0, 0, 0, 0, 0, 0, 1, 0, 0, 0, 0, 0, 0, 4, 1, 7, 0x17, 0x16,
];

// `fn main() { }`: RET alone.
const NOTHING: [u8; 22] = [
    0x4c, 0x52, 0x50, 0x58, 0, 2, 0, 0, 0, 0, 0, 0, 0, 1, 0, 0, 0, 0, 0, 0, 1, 0x16,
];

// 127 and 007 are pushed by one byte; 128 and 9223372036854775807 by eight.
const EDGES: [u8; 48] = [
    0x4c, 0x52, 0x50, 0x58, 0, 2, 0, 0, 0, 0, 0, 0, 0, 1, 0, 0, 0, 0, 0, 0, 0x1b, 1, 0x7f, 0x17, 1,
    7, 0x17, 2, 0, 0, 0, 0, 0, 0, 0, 0x80, 0x17, 2, 0x7f, 0xff, 0xff, 0xff, 0xff, 0xff, 0xff, 0xff,
    0x17, 0x16,
];

const BUILD: [&str; 4] = ["build", "main.larch", "--jobs", "1"];

const PRINTS_7: &[u8] = b"fn main() { print(7); }";

// The calls of the files, of out and of err that are to fail.
#[derive(Clone, Copy)]
struct Failing<'a> {
    files: &'a [u64],
    out: &'a [u64],
    err: &'a [u64],
}

const NONE: Failing<'static> = Failing {
    files: &[],
    out: &[],
    err: &[],
};

// What a run left: its number, both streams, the image, and whether the file beside is as it was.
#[derive(Drop)]
struct Left {
    number: u8,
    out: Vec<u8>,
    err: Vec<u8>,
    image: Option<Vec<u8>>,
    other_stays: bool,
}

fn files_with(
    alloc: Global,
    source: Option<&[u8]>,
    failing: &[u64],
) -> Result<MemoryFiles, AllocError> {
    let other = File {
        name: Text::copied(alloc, "other")?,
        bytes: Bytes::copied(alloc, b"beside")?,
    };
    match source {
        None => MemoryFiles::new(alloc, &[other], failing),
        Some(source) => {
            let source = File {
                name: Text::copied(alloc, "main.larch")?,
                bytes: Bytes::copied(alloc, source)?,
            };
            MemoryFiles::new(alloc, &[source, other], failing)
        }
    }
}

fn owned(alloc: Global, words: &[&str]) -> Result<Vec<String>, AllocError> {
    let mut owned = Vec::new(alloc);
    for word in words {
        owned.push(word.to_string(alloc)?)?;
    }
    Ok(owned)
}

fn run(
    alloc: Global,
    words: &[&str],
    source: Option<&[u8]>,
    failing: Failing<'_>,
) -> Result<Left, AllocError> {
    let words = owned(alloc, words)?;
    let mut files = files_with(alloc, source, failing.files)?;
    let mut out = MemorySink::new(alloc, failing.out)?;
    let mut err = MemorySink::new(alloc, failing.err)?;
    let status = larch_plain(alloc, &words, None, &mut files, &mut out, &mut err);
    let image = match files.held("a.lrpx") {
        Some(bytes) => Some(bytes.to_vec(alloc)?),
        None => None,
    };
    let other_stays = match files.held("other") {
        Some(bytes) => bytes == b"beside".as_slice(),
        None => false,
    };
    Ok(Left {
        number: status.number(),
        out: out.bytes().to_vec(alloc)?,
        err: err.bytes().to_vec(alloc)?,
        image,
        other_stays,
    })
}

fn check(rt: &impl Abort, left: &Left, number: u8, out: &str, err: &str, image: Option<&[u8]>) {
    assert_eq!(rt; left.number, number);
    assert_eq!(rt; left.out.as_slice(), out.as_bytes());
    assert_eq!(rt; left.err.as_slice(), err.as_bytes());
    match (&left.image, image) {
        (Some(left), Some(wanted)) => assert_eq!(rt; left.as_slice(), wanted),
        (None, None) => {}
        _ => panic!(rt; "an image that is not wanted, or none where one is"),
    }
    assert!(rt; left.other_stays);
}

#[test]
fn prints_are_built(rt: HostRuntime) -> Result<(), Fail> {
    let alloc = rt.alloc();
    let edges = b"fn main() { print(127); print(007); print(128); print(9223372036854775807); }";
    let cases: [(&[u8], &[u8]); 3] = [
        (PRINTS_7, &SEVEN),
        (b"fn main() { }", &NOTHING),
        (edges, &EDGES),
    ];
    for (source, image) in cases {
        let left = run(alloc, &BUILD, Some(source), NONE)?;
        check(&rt, &left, 0, "units 1 made 1 reused 0\n", "", Some(image));
    }
    Ok(())
}

#[test]
fn refusals_leave_the_files(rt: HostRuntime) -> Result<(), Fail> {
    let alloc = rt.alloc();
    let left = run(alloc, &BUILD, None, NONE)?;
    check(&rt, &left, 3, "", "larchc: main.larch: not found\n", None);
    let others: [(&[u8], u8, &str); 3] = [
        (
            b"fn main() { let x: i64 = 1; }",
            13,
            "larchc: unsupported input\n",
        ),
        (
            b"fn main() { print(9223372036854775808); }",
            1,
            "main.larch:1:19: E10 past the limit 9223372036854775807\n",
        ),
        (b"", 1, "main.larch:1:1: E09 no lawful main\n"),
    ];
    for (source, number, line) in others {
        let left = run(alloc, &BUILD, Some(source), NONE)?;
        check(&rt, &left, number, "", line, None);
    }
    Ok(())
}

#[test]
fn sources_are_checked(rt: HostRuntime) -> Result<(), Fail> {
    let alloc = rt.alloc();
    let wrong = "main.larch:1:19: E04 unknown name x\n";
    // The source, the calls of out that fail, the number, what stands on out and on err.
    let cases: [(&[u8], &[u64], u8, &str, &str); 3] = [
        (PRINTS_7, &[], 0, "ok\n", ""),
        (PRINTS_7, &[0], 6, "", ""),
        (b"fn main() { print(x); }", &[], 1, "", wrong),
    ];
    for (source, out, number, text, line) in cases {
        let failing = Failing { out, ..NONE };
        let left = run(alloc, &["check", "main.larch"], Some(source), failing)?;
        check(&rt, &left, number, text, line, None);
    }
    let left = run(alloc, &["check", "main.larch", "a.larch"], Some(b"$"), NONE)?;
    check(&rt, &left, 3, "", "larchc: a.larch: not found\n", None);
    Ok(())
}

#[test]
fn a_file_that_fails_is_named(rt: HostRuntime) -> Result<(), Fail> {
    let alloc = rt.alloc();
    let read = Failing {
        files: &[0],
        ..NONE
    };
    let left = run(alloc, &BUILD, Some(PRINTS_7), read)?;
    check(&rt, &left, 4, "", "larchc: main.larch: file fault\n", None);
    let write = Failing {
        files: &[1],
        ..NONE
    };
    let left = run(alloc, &BUILD, Some(PRINTS_7), write)?;
    check(&rt, &left, 4, "", "larchc: a.lrpx: file fault\n", None);
    Ok(())
}

#[test]
fn a_stream_that_fails_decides(rt: HostRuntime) -> Result<(), Fail> {
    let alloc = rt.alloc();
    let out = Failing { out: &[0], ..NONE };
    let left = run(alloc, &BUILD, Some(PRINTS_7), out)?;
    check(&rt, &left, 6, "", "", Some(&SEVEN));
    let err = Failing { err: &[0], ..NONE };
    let left = run(alloc, &BUILD, None, err)?;
    check(&rt, &left, 6, "", "", None);
    let left = run(alloc, &["build"], None, err)?;
    check(&rt, &left, 6, "", "", None);
    // Nothing is put where there is nothing to say.
    let left = run(alloc, &BUILD, Some(PRINTS_7), err)?;
    check(&rt, &left, 0, "units 1 made 1 reused 0\n", "", Some(&SEVEN));
    Ok(())
}

// A sink that takes one byte of each piece.
#[derive(Drop)]
struct Narrow {
    sink: MemorySink,
}

impl Sink for Narrow {
    ghost use Rattle.sinks.specs.MemorySinkState.{sink_told};

    ghost told = { λ narrow. sink_told narrow.sink };

    fn put(&mut self, alloc: Global, piece: &[u8]) -> Put {
        if piece.is_empty() {
            return self.sink.put(alloc, piece);
        }
        self.sink.put(alloc, &piece[..1])
    }
}

#[test]
fn a_line_is_put_byte_by_byte(rt: HostRuntime) -> Result<(), Fail> {
    let alloc = rt.alloc();
    let words = owned(alloc, &BUILD)?;
    let mut files = files_with(alloc, Some(PRINTS_7), &[])?;
    let mut out = Narrow {
        sink: MemorySink::new(alloc, &[])?,
    };
    let mut err = Narrow {
        sink: MemorySink::new(alloc, &[])?,
    };
    let status = larch_plain(alloc, &words, None, &mut files, &mut out, &mut err);
    assert_eq!(rt; status.number(), 0);
    assert_eq!(rt; out.sink.bytes(), b"units 1 made 1 reused 0\n".as_slice());
    let status = larch_plain(alloc, &[], None, &mut files, &mut out, &mut err);
    assert_eq!(rt; status.number(), 2);
    assert_eq!(rt; err.sink.bytes(), b"larchc: usage\n".as_slice());
    Ok(())
}

#[test]
fn sources_are_generated(rt: HostRuntime) -> Result<(), Fail> {
    let alloc = rt.alloc();
    let words = owned(alloc, &["gen", "1", "1"])?;
    let begin = b"const C: i64 = 39;\n".as_slice();
    // Which call on the files fails, what the call answers, whether the module is there then.
    let cases: [(&[u64], u8, &str, bool); 3] = [
        (&[], 0, "wrote 2 files\n", true),
        (&[0], 4, "", false),
        (&[1], 4, "", false),
    ];
    for (failing, number, text, there) in cases {
        let mut files = files_with(alloc, None, failing)?;
        let mut out = MemorySink::new(alloc, &[])?;
        let mut err = MemorySink::new(alloc, &[])?;
        let status = larch_plain(alloc, &words, None, &mut files, &mut out, &mut err);
        assert_eq!(rt; status.number(), number);
        assert_eq!(rt; out.bytes(), text.as_bytes());
        let module = files.held("m0.larch");
        assert_eq!(rt; module.is_some_and(|bytes| bytes.starts_with(begin)), there);
    }
    Ok(())
}

#[test]
fn a_dry_run_does_nothing(rt: HostRuntime) -> Result<(), Fail> {
    let alloc = rt.alloc();
    let words = owned(alloc, &BUILD)?;
    let mut files = files_with(alloc, None, &[0])?;
    let mut out = MemorySink::new(alloc, &[0])?;
    let mut err = MemorySink::new(alloc, &[0])?;
    let dry = Some("kn --jobserver-auth=3,4");
    let status = larch_plain(alloc, &words, dry, &mut files, &mut out, &mut err);
    assert_eq!(rt; status.number(), 0);
    Ok(())
}
