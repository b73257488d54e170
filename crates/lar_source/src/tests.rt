ghost use Rattle.std.specs.Prelude.{◌≡◌, ◌∷◌, [], IfOk};
ghost use Rattle.std.specs.Str.{IsAscii};

use super::*;
use std::alloc::{AllocError, Global};
use std::test::Fail;

fn one(alloc: Global, text: &str) -> Result<Texts, AllocError>
    requires { IsAscii text.now }
    ensures { IfOk result (λ texts. texts ≡ text.now ∷ []) }
{
    let mut texts = Texts::new(alloc);
    texts.push(Text::copied(alloc, text)?)?;
    Ok(texts)
}

// The line of the diagnostic at 12:3 of a.larch with these arguments, or no bytes where the text takes another number of them.
fn line(alloc: Global, code: Code, args: &[&str]) -> Result<Bytes, AllocError> {
    let mut texts = Texts::new(alloc);
    for arg in args {
        if arg.is_ascii() {
            texts.push(Text::copied(alloc, arg)?)?;
        }
    }
    let mut out = Bytes::new(alloc);
    if texts.len() == code.arity() {
        let file = Text::copied(alloc, "a.larch")?;
        Diag::new(code, file, 12, 3, texts).write(alloc, &mut out)?;
    }
    Ok(out)
}

#[test]
fn each_code_has_its_line(rt: HostRuntime) -> Result<(), Fail> {
    let alloc = rt.alloc();
    let cases: [(Code, &[&str], &str); 18] = [
        (Code::UnexpectedByte, &["26"], "E01 unexpected byte 26"),
        (Code::SyntaxError, &[], "E02 syntax error"),
        (Code::DefinedTwice, &["f"], "E03 name f defined twice"),
        (Code::UnknownName, &["b::G"], "E04 unknown name b::G"),
        (
            Code::WrongType,
            &["bool", "(i64,T)"],
            "E05 wanted bool, found (i64,T)",
        ),
        (
            Code::WrongCount,
            &["2", "10"],
            "E06 wanted 2 arguments, found 10",
        ),
        (Code::NoSuchPlace, &[], "E07 no such field or place"),
        (
            Code::NestedTooDeep,
            &["S"],
            "E08 struct S is nested too deep",
        ),
        (Code::NoLawfulMain, &[], "E09 no lawful main"),
        (Code::PastLimit, &["64"], "E10 past the limit 64"),
        (
            Code::MayEndWithoutValue,
            &["f"],
            "E11 function f may end without a value",
        ),
        (Code::ArgumentTooLarge, &[], "E20 type argument too large"),
        (Code::TooManyInstances, &[], "E21 more than 65536 instances"),
        (
            Code::AssertionFalse,
            &["a::f"],
            "E30 static assertion is false in a::f",
        ),
        (
            Code::AssertionTraps,
            &["a::f"],
            "E31 static assertion traps in a::f",
        ),
        (
            Code::TooManySlots,
            &["a::f"],
            "E32 more than 255 slots in a::f",
        ),
        (
            Code::TooMuchCode,
            &["b::f"],
            "E33 more than 16777216 code bytes in b::f",
        ),
        (Code::ImageTooLarge, &[], "E40 image over 67108864 bytes"),
    ];
    for (code, args, text) in cases {
        let expected = format!(in alloc; "a.larch:12:3: {text}\n")?;
        assert!(rt;
            line(alloc, code, args)?.as_slice() == expected.as_bytes(),
            "at {text}"
        );
    }
    Ok(())
}

#[test]
fn a_line_goes_to_the_end(rt: HostRuntime) -> Result<(), Fail> {
    let alloc = rt.alloc();
    let file = Text::copied(alloc, "main.larch")?;
    let diag = Diag::new(Code::UnexpectedByte, file, 1, 21, one(alloc, "26")?);
    assert!(rt; diag.code() == Code::UnexpectedByte);
    assert_eq!(rt; diag.file().as_str(), "main.larch");
    assert_eq!(rt; (diag.line(), diag.col()), (1, 21));
    assert!(rt; matches!(diag.args(), [byte] if byte.as_str() == "26"));
    let mut out = Bytes::copied(alloc, b"before\n")?;
    diag.write(alloc, &mut out)?;
    assert!(rt; out == Bytes::copied(alloc, b"before\nmain.larch:1:21: E01 unexpected byte 26\n")?);
    Ok(())
}
