use super::*;
use lar_bytes::{Bytes, OrMemory};
use object_format::{Object, read_object, write_image};
use std::alloc::Global;
use std::test::Fail;

/// A function that takes, leaves and keeps no words.
#[derive(Clone, Copy)]
struct Plain<'a> {
    symbol: &'a str,
    external: bool,
    code: &'a [u8],
}

fn put_count(out: &mut Bytes, count: usize) -> Result<(), Fail> {
    out.append(&u32::try_from(count)?.to_be_bytes())?;
    Ok(())
}

fn put_symbol(out: &mut Bytes, symbol: &str) -> Result<(), Fail> {
    put_count(out, symbol.len())?;
    out.append(symbol.as_bytes())?;
    Ok(())
}

fn put_function(out: &mut Bytes, function: &Plain) -> Result<(), Fail> {
    put_symbol(out, function.symbol)?;
    let kind = if function.external { 1 } else { 0 };
    out.append(&[kind, 0, 0, 0])?;
    out.append(&u16::try_from(function.code.len())?.to_be_bytes())?;
    out.append(function.code)?;
    Ok(())
}

/// An object with these functions and externals.
fn object(alloc: Global, functions: &[Plain], externals: &[&str]) -> Result<Object, Fail> {
    let mut out = Bytes::copied(alloc, b"LROB\x00\x01")?;
    put_count(&mut out, functions.len())?;
    for function in functions {
        put_function(&mut out, function)?;
    }
    put_count(&mut out, externals.len())?;
    for external in externals {
        put_symbol(&mut out, external)?;
    }
    Ok(read_object(alloc, out.as_slice())?)
}

/// The spelling of the linked image, or the text of the refusal.
fn linked(alloc: Global, objects: &[Object]) -> Result<Result<Bytes, String>, Fail> {
    if objects.len() > 1000 {
        return Err(Fail::from("too many objects for a test"));
    }
    match link(alloc, objects) {
        Ok(image) => Ok(Ok(write_image(alloc, &image)?)),
        Err(OrMemory::Refused(fault)) => Ok(Err(format!(in alloc; "{fault}")?)),
        Err(OrMemory::Memory) => Err(Fail::from("memory")),
    }
}

fn image_of(alloc: Global, objects: &[Object]) -> Result<Bytes, Fail> {
    match linked(alloc, objects)? {
        Ok(image) => Ok(image),
        Err(_) => Err(Fail::from("refused")),
    }
}

fn refusal_of(alloc: Global, objects: &[Object]) -> Result<String, Fail> {
    match linked(alloc, objects)? {
        Ok(_) => Err(Fail::from("linked")),
        Err(text) => Ok(text),
    }
}

/// `main::main`, which prints 7.
const PRINTS_7: [u8; 38] =
    *b"LROB\x00\x01\0\0\0\x01\0\0\0\x0amain::main\x01\0\0\0\0\x04\x01\x07\x17\x16\0\0\0\0";

/// `b::go`, which prints what its `main::inc` makes of 2.
const B: [u8; 64] =
    *b"LROB\x00\x01\0\0\0\x02\0\0\0\x05b::go\x01\0\0\0\0\x09\x01\x02\x15\0\0\0\x01\x17\x16\0\0\0\x09main::inc\0\x01\x01\x01\0\x07\x03\0\x01\x01\x06\x16\x18\0\0\0\0";

/// `main::main`, which prints what its own `main::inc` makes of 1, and then calls `b::go`.
const MAIN: [u8; 83] =
    *b"LROB\x00\x01\0\0\0\x02\0\0\0\x0amain::main\x01\0\0\0\0\x0e\x01\x01\x15\0\0\0\x01\x17\x15\0\0\0\x02\x16\0\0\0\x09main::inc\0\x01\x01\x01\0\x07\x03\0\x01\x01\x06\x16\x18\0\0\0\x01\0\0\0\x05b::go";

#[test]
fn one_object_is_linked(rt: HostRuntime) -> Result<(), Fail> {
    let alloc = rt.alloc();
    let objects = [read_object(alloc, &PRINTS_7)?];
    let image = image_of(alloc, &objects)?;
    assert_eq!(rt;
        image.as_slice(),
        b"LRPX\x00\x02\0\0\0\0\0\0\0\x01\0\0\0\0\0\0\x04\x01\x07\x17\x16".as_slice()
    );
    Ok(())
}

#[test]
fn two_objects_are_linked(rt: HostRuntime) -> Result<(), Fail> {
    let alloc = rt.alloc();
    let objects = [read_object(alloc, &B)?, read_object(alloc, &MAIN)?];
    let image = image_of(alloc, &objects)?;
    assert_eq!(rt;
        image.as_slice(),
        b"LRPX\x00\x02\0\0\0\x02\0\0\0\x04\0\0\0\0\0\0\x09\x01\x02\x15\0\0\0\x01\x17\x16\x01\x01\x01\0\0\0\x07\x03\0\x01\x01\x06\x16\x18\0\0\0\0\0\0\x0e\x01\x01\x15\0\0\0\x03\x17\x15\0\0\0\0\x16\x01\x01\x01\0\0\0\x07\x03\0\x01\x01\x06\x16\x18".as_slice()
    );
    Ok(())
}

#[test]
fn each_refusal_has_its_text(rt: HostRuntime) -> Result<(), Fail> {
    let alloc = rt.alloc();
    let twice = [
        read_object(alloc, &PRINTS_7)?,
        read_object(alloc, &PRINTS_7)?,
    ];
    assert_eq!(rt;
        refusal_of(alloc, &twice)?.as_str(),
        "main::main defined in 0 and 1"
    );
    let undefined = [read_object(alloc, &MAIN)?];
    assert_eq!(rt;
        refusal_of(alloc, &undefined)?.as_str(),
        "b::go undefined in 0"
    );
    let nothing = [object(alloc, &[], &[])?];
    assert_eq!(rt; refusal_of(alloc, &nothing)?.as_str(), "no entry");
    assert_eq!(rt; refusal_of(alloc, &[])?.as_str(), "no entry");
    Ok(())
}

const RETURN: [u8; 1] = [0x16];

fn outer(symbol: &str) -> Plain<'_> {
    Plain {
        symbol,
        external: true,
        code: &RETURN,
    }
}

fn inner(symbol: &str) -> Plain<'_> {
    Plain {
        symbol,
        external: false,
        code: &RETURN,
    }
}

#[test]
fn calls_go_both_ways(rt: HostRuntime) -> Result<(), Fail> {
    let alloc = rt.alloc();
    // a::f calls b::f and its own a::g, which calls main::main.
    let a_f = Plain {
        symbol: "a::f",
        external: true,
        code: &[0x15, 0, 0, 0, 2, 0x15, 0, 0, 0, 1, 0x16],
    };
    let a_g = Plain {
        symbol: "a::g",
        external: false,
        code: &[0x15, 0, 0, 0, 3, 0x16],
    };
    let a = object(alloc, &[a_f, a_g], &["b::f", "main::main"])?;
    // b::f calls a::f and its own a::g.
    let b_f = Plain {
        symbol: "b::f",
        external: true,
        code: &[0x15, 0, 0, 0, 2, 0x15, 0, 0, 0, 0, 0x16],
    };
    let b = object(alloc, &[inner("a::g"), b_f], &["a::f"])?;
    // main::main calls both.
    let main = Plain {
        symbol: "main::main",
        external: true,
        code: &[0x15, 0, 0, 0, 1, 0x15, 0, 0, 0, 2, 0x16],
    };
    let objects = [a, b, object(alloc, &[main], &["b::f", "a::f"])?];
    let image = image_of(alloc, &objects)?;
    assert_eq!(rt;
        image.as_slice(),
        b"LRPX\x00\x02\0\0\0\x04\0\0\0\x05\
        \0\0\0\0\0\0\x0b\x15\0\0\0\x03\x15\0\0\0\x01\x16\
        \0\0\0\0\0\0\x06\x15\0\0\0\x04\x16\
        \0\0\0\0\0\0\x01\x16\
        \0\0\0\0\0\0\x0b\x15\0\0\0\0\x15\0\0\0\x02\x16\
        \0\0\0\0\0\0\x0b\x15\0\0\0\x03\x15\0\0\0\0\x16"
            .as_slice()
    );
    Ok(())
}

#[test]
fn refusals_come_in_order(rt: HostRuntime) -> Result<(), Fail> {
    let alloc = rt.alloc();
    // p and q are defined again in object 2, q first; z and y are not defined, and neither is x.
    let objects = [
        object(alloc, &[outer("p")], &[])?,
        object(
            alloc,
            &[inner("p"), outer("q"), inner("z")],
            &["main::main", "y"],
        )?,
        object(alloc, &[inner("x"), outer("q"), outer("p")], &[])?,
    ];
    assert_eq!(rt;
        refusal_of(alloc, &objects)?.as_str(),
        "q defined in 1 and 2"
    );
    let objects = [
        object(alloc, &[outer("p")], &[])?,
        object(
            alloc,
            &[inner("x"), outer("q"), inner("z")],
            &["p", "y", "main::main"],
        )?,
        object(alloc, &[inner("main::main"), inner("y")], &["x"])?,
    ];
    assert_eq!(rt; refusal_of(alloc, &objects)?.as_str(), "y undefined in 1");
    let objects = [
        object(alloc, &[outer("p"), inner("main::main")], &[])?,
        object(alloc, &[inner("x"), outer("q")], &["p"])?,
    ];
    assert_eq!(rt; refusal_of(alloc, &objects)?.as_str(), "no entry");
    Ok(())
}

/// An object whose function of this symbol calls another object's.
fn link_of_chain(alloc: Global, symbol: &str, next: &str) -> Result<Object, Fail> {
    let code = [0x15, 0, 0, 0, 1, 0x16];
    object(
        alloc,
        &[Plain {
            symbol,
            external: true,
            code: &code,
        }],
        &[next],
    )
}

#[test]
fn many_objects_are_linked(rt: HostRuntime) -> Result<(), Fail> {
    let alloc = rt.alloc();
    let mut objects = Vec::new(alloc);
    objects.push(link_of_chain(alloc, "main::main", "f1")?)?;
    for number in 1..255u32 {
        let symbol = format!(in alloc; "f{number}")?;
        let next = format!(in alloc; "f{}", number + 1)?;
        objects.push(link_of_chain(alloc, symbol.as_str(), next.as_str())?)?;
    }
    objects.push(link_of_chain(alloc, "f255", "main::main")?)?;
    let image = image_of(alloc, objects.as_slice())?;
    let mut expected = Bytes::copied(alloc, b"LRPX\x00\x02\0\0\0\0\0\0\x01\0")?;
    for number in 1..256u32 {
        expected.append(b"\0\0\0\0\0\0\x06\x15")?;
        expected.append(&number.to_be_bytes())?;
        expected.append(&RETURN)?;
    }
    expected.append(b"\0\0\0\0\0\0\x06\x15\0\0\0\0\x16")?;
    assert_eq!(rt; image.as_slice(), expected.as_slice());
    Ok(())
}

/// Code of so many bytes: instructions of nine bytes behind as many of one as are left over.
fn code_of(code: &[u8], len: u16) -> Result<&[u8], Fail> {
    let len = usize::from(len);
    let singles = len % 9;
    Ok(
        code.get(8 - singles..8 + len - singles)
            .ok_or("no function of the test is longer")?,
    )
}

/// An object of 1,024 functions of 65,529 bytes each, but for the last.
fn large(alloc: Global, first: &str, last: u16) -> Result<Object, Fail> {
    let mut bytes = Bytes::copied(alloc, &[0x16; 8])?;
    for _ in 0..7281u32 {
        bytes.append(&[0x02, 0, 0, 0, 0, 0, 0, 0, 1])?;
    }
    let code = code_of(bytes.as_slice(), 65_529)?;
    let mut out = Bytes::copied(alloc, b"LROB\x00\x01\0\0\x04\0")?;
    put_function(
        &mut out,
        &Plain {
            symbol: first,
            external: true,
            code,
        },
    )?;
    for number in 1..1023u32 {
        let symbol = format!(in alloc; "f{number}")?;
        let function = Plain {
            symbol: symbol.as_str(),
            external: false,
            code,
        };
        put_function(&mut out, &function)?;
    }
    let code = code_of(bytes.as_slice(), last)?;
    put_function(
        &mut out,
        &Plain {
            symbol: "last",
            external: false,
            code,
        },
    )?;
    put_count(&mut out, 0)?;
    Ok(read_object(alloc, out.as_slice())?)
}

#[test]
fn an_image_may_have_so_many_bytes(rt: HostRuntime) -> Result<(), Fail> {
    let alloc = rt.alloc();
    // 14 bytes, 1,024 times 7, 1,023 times 65,529 and 65,515 are 67,108,864.
    let most = [large(alloc, "main::main", 65_515)?];
    assert_eq!(rt; image_of(alloc, &most)?.len(), 67_108_864);
    let over = [large(alloc, "main::main", 65_516)?];
    assert_eq!(rt;
        refusal_of(alloc, &over)?.as_str(),
        "image over 67108864 bytes"
    );
    let without_entry = [large(alloc, "main::mine", 65_516)?];
    assert_eq!(rt; refusal_of(alloc, &without_entry)?.as_str(), "no entry");
    Ok(())
}
