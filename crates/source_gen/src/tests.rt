use super::*;
use crate::draws::Draws;
use lar_source::File;
use std::test::Fail;

const MODULE: &str = "const C: i64 = 39;\n\
#[inline]\n\
fn mix(x: i64) -> i64 { return x * 8 + C; }\n\
fn twice<T>(x: T) -> (T, T) { return (x, x); }\n\
fn work(n: i64) -> i64 {\n\
let s: i64 = n;\n\
let i: i64 = 0;\n\
while i < 14 {\n\
s = mix(s) + m0::mix(i);\n\
i = i + 1;\n\
}\n\
let p: (i64, i64) = twice::<i64>(s);\n\
return p.0 % 1000003;\n\
}\n";

const MAIN: &str = "fn main() {\nprint(m0::work(1));\n}\n";

fn is_file(file: &File, name: &str, text: &str) -> bool {
    file.name.as_str() == name && file.bytes.as_slice() == text.as_bytes()
}

#[test]
fn draws_of_seed_1(rt: HostRuntime) -> Result<(), Fail> {
    let mut draws = Draws::new(1);
    for number in [16838u32, 5758, 10113] {
        assert_eq!(rt; draws.draw(), number);
    }
    Ok(())
}

#[test]
fn one_module_calls_itself(rt: HostRuntime) -> Result<(), Fail> {
    let files = sources(rt.alloc(), 1, 1)?;
    assert_eq!(rt; files.len(), 2);
    assert!(rt; is_file(&files[0], "main.larch", MAIN));
    assert!(rt; is_file(&files[1], "m0.larch", MODULE));
    Ok(())
}

#[test]
fn as_many_modules_as_there_may_be(rt: HostRuntime) -> Result<(), Fail> {
    let files = sources(rt.alloc(), 2147483647, 255)?;
    assert_eq!(rt; files.len(), 256);
    assert!(rt; files[255].name.as_str() == "m254.larch");
    Ok(())
}
