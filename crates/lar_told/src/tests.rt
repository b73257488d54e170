use super::*;
use lar_source::{Bytes, Code, Span, Text};
use std::test::Fail;

// A line for each note: file, line, column, code, and whether the fault is kept.
const NOTES: [(usize, u32, u32, Code, bool); 9] = [
    (1, 4, 7, Code::UnknownName, true),
    (1, 4, 7, Code::UnknownName, false),
    (2, 1, 1, Code::DefinedTwice, false),
    (1, 4, 7, Code::NestedTooDeep, false),
    (1, 4, 7, Code::DefinedTwice, true),
    (1, 4, 6, Code::PastLimit, true),
    (1, 3, 9, Code::PastLimit, true),
    (0, 9, 9, Code::UnknownName, true),
    (0, 9, 10, Code::DefinedTwice, false),
];

#[test]
fn the_least_is_kept(rt: HostRuntime) -> Result<(), Fail> {
    let alloc = rt.alloc();
    let name = Text::copied(alloc, "f")?;
    let mut first = First::new();
    for (file, line, col, code, kept) in NOTES {
        let at = Span { file: 0, line, col };
        assert_eq!(rt; first.takes(file, at, code), kept);
        if code.arity() == 1 {
            first.note_name(alloc, file, at, code, &name)?;
        }
    }
    let mut out = Bytes::new(alloc);
    if let Some(told) = first.into_fault() {
        assert_eq!(rt; told.file(), 0);
        told.into_diag(Text::copied(alloc, "a.larch")?)
            .write(alloc, &mut out)?;
    }
    assert!(rt; out == Bytes::copied(alloc, b"a.larch:9:9: E04 unknown name f\n")?);
    Ok(())
}

#[test]
fn texts_of_numbers_and_none(rt: HostRuntime) -> Result<(), Fail> {
    let alloc = rt.alloc();
    let at = Span {
        file: 0,
        line: 2,
        col: 5,
    };
    let mut out = Bytes::new(alloc);
    let mut none = First::new();
    none.note_none(alloc, 3, at, Code::NoSuchPlace);
    let mut one = First::new();
    one.note_count(alloc, 3, at, Code::PastLimit, 65535)?;
    let mut two = First::new();
    two.note_counts(alloc, 3, at, Code::WrongCount, 2, 16)?;
    for first in [none, one, two] {
        if let Some(told) = first.into_fault() {
            told.into_diag(Text::copied(alloc, "a.larch")?)
                .write(alloc, &mut out)?;
        }
    }
    let lines =
        b"a.larch:2:5: E07 no such field or place\na.larch:2:5: E10 past the limit 65535\na.larch:2:5: E06 wanted 2 arguments, found 16\n";
    assert!(rt; out == Bytes::copied(alloc, lines)?);
    Ok(())
}
