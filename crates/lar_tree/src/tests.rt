use super::*;
use std::test::Fail;

#[test]
fn keywords_and_names(rt: HostRuntime) -> Result<(), Fail> {
    let words = [
        "mod",
        "struct",
        "const",
        "fn",
        "let",
        "if",
        "else",
        "while",
        "return",
        "print",
        "static_assert",
        "new",
        "true",
        "false",
        "i64",
        "bool",
    ];
    for word in words {
        let keyword = Keyword::of(word.as_bytes()).ok_or("no keyword")?;
        assert_eq!(rt; keyword.spelling(), word);
    }
    for name in ["", "Mod", "mo", "mods", "inline", "i6", "static_asser"] {
        assert!(rt; Keyword::of(name.as_bytes()).is_none(), "at {name}");
    }
    Ok(())
}

#[test]
fn tokens_are_compared(rt: HostRuntime) -> Result<(), Fail> {
    let alloc = rt.alloc();
    let span = Span {
        file: 0,
        line: 1,
        col: 2,
    };
    let name = Token {
        kind: Kind::Name(Text::copied(alloc, "a")?),
        span,
    };
    let number = Token {
        kind: Kind::Number(7),
        span,
    };
    assert!(rt; name != number);
    assert!(rt; name.kind == Kind::Name(Text::copied(alloc, "a")?));
    assert_eq!(rt; Sign::PathSep.spelling(), "::");
    assert!(rt; Kind::Word(Keyword::Fn) != Kind::Sign(Sign::Arrow));
    Ok(())
}
