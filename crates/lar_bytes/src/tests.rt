use super::*;
use std::alloc::{AllocError, Global};
use std::test::Fail;

fn refuse(alloc: Global, wanted: bool) -> Result<Text, OrMemory<u8>> {
    if wanted {
        return Err(OrMemory::Refused(7));
    }
    Ok(Text::copied(alloc, "taken")?)
}

#[test]
fn texts_of_any_length(rt: HostRuntime) -> Result<(), Fail> {
    let alloc = rt.alloc();
    let cases = [
        "",
        "a",
        "static_assertion_of_22",
        "static_assertion_of__23",
        "a::module::of::names::that::is::long",
    ];
    for text in cases {
        assert!(rt; text.is_ascii());
        let copy = Text::copied(alloc, text)?;
        let moved = Text::from_string(alloc, text.to_string(alloc)?)?;
        assert_eq!(rt; copy.as_str(), text);
        assert_eq!(rt; copy.len(), text.len());
        assert_eq!(rt; copy.is_empty(), text == "");
        assert!(rt; copy == moved, "at {text}");
        assert_eq!(rt; copy == Text::new(), text == "", "at {text}");
    }
    Ok(())
}

#[test]
fn texts_in_a_row(rt: HostRuntime) -> Result<(), Fail> {
    let alloc = rt.alloc();
    let mut texts = Texts::new(alloc);
    texts.push(Text::copied(alloc, "a")?)?;
    texts.push(Text::copied(alloc, "b")?)?;
    assert_eq!(rt; texts.len(), 2);
    let texts = Texts::from_vec(texts.into_vec());
    assert!(rt; matches!(texts.as_slice(), [_, b] if b.as_str() == "b"));
    Ok(())
}

#[test]
fn bytes_grow_at_the_end(rt: HostRuntime) -> Result<(), Fail> {
    let alloc = rt.alloc();
    let mut bytes = Bytes::new(alloc);
    assert!(rt; bytes.is_empty());
    bytes.push(1)?;
    bytes.append(&[2, 3])?;
    assert_eq!(rt; bytes.as_slice(), [1u8, 2, 3].as_slice());
    assert_eq!(rt; bytes.len(), 3);
    assert!(rt; bytes == Bytes::copied(alloc, &[1, 2, 3])?);
    let bytes = Bytes::from_vec(bytes.into_vec());
    assert!(rt; bytes != Bytes::copied(alloc, &[1, 2])?);
    Ok(())
}

#[test]
fn a_refusal_is_kept(rt: HostRuntime) -> Result<(), Fail> {
    let alloc = rt.alloc();
    assert!(rt; matches!(refuse(alloc, true), Err(OrMemory::Refused(7))));
    assert!(rt; matches!(refuse(alloc, false), Ok(text) if text.as_str() == "taken"));
    let error: OrMemory<u8> = OrMemory::from(AllocError);
    assert_eq!(rt; error, OrMemory::Memory);
    Ok(())
}
