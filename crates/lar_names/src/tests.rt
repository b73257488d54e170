use super::*;
use lar_told::First;
use lar_tree::{
    Block, Bytes, Const, Fn, Item, Mod, Name, Path, Segment, SignedNumber, Span, Struct, Text, Tree,
};
use sqlite_items::Items;
use std::alloc::{AllocError, Global};
use std::test::Fail;

#[derive(Clone, Copy)]
enum Leaf {
    Struct,
    Const,
    Fn,
}

fn at(col: u32) -> Span {
    Span {
        file: 0,
        line: 1,
        col,
    }
}

fn name(alloc: Global, text: &str, col: u32) -> Result<Name, AllocError> {
    let text = if text.is_ascii() {
        Text::copied(alloc, text)?
    } else {
        Text::new()
    };
    Ok(Name {
        text,
        span: at(col),
    })
}

fn struct_item(name: Name) -> Item {
    Item::Struct(Struct {
        keyword: at(1),
        name,
        generics: None,
        open: at(1),
        fields: None,
        close: at(1),
    })
}

fn const_item(name: Name) -> Item {
    Item::Const(Const {
        keyword: at(1),
        name,
        colon: at(1),
        int: at(1),
        assign: at(1),
        value: SignedNumber {
            minus: None,
            value: 5,
            span: at(1),
        },
        semicolon: at(1),
    })
}

fn fn_item(alloc: Global, name: Name) -> Item {
    Item::Fn(Fn {
        attributes: Items::new(alloc),
        keyword: at(1),
        name,
        generics: None,
        open: at(1),
        params: None,
        close: at(1),
        output: None,
        body: Block {
            open: at(1),
            stmts: Items::new(alloc),
            close: at(1),
        },
    })
}

// The items of a list, each with its name at a column of its own.
fn leaves(alloc: Global, list: &[(Leaf, &str, u32)]) -> Result<Items<Item>, AllocError> {
    let mut items = Items::new(alloc);
    for (leaf, text, col) in list {
        let name = name(alloc, text, *col)?;
        let item = match leaf {
            Leaf::Struct => struct_item(name),
            Leaf::Const => const_item(name),
            Leaf::Fn => fn_item(alloc, name),
        };
        items.push(item)?;
    }
    Ok(items)
}

fn module_item(
    alloc: Global,
    text: &str,
    col: u32,
    list: &[(Leaf, &str, u32)],
) -> Result<Item, AllocError> {
    Ok(Item::Mod(Mod {
        keyword: at(1),
        name: name(alloc, text, col)?,
        open: at(1),
        items: leaves(alloc, list)?,
        close: at(1),
    }))
}

fn first_file(alloc: Global) -> Result<Tree, AllocError> {
    let mut items = leaves(
        alloc,
        &[
            (Leaf::Struct, "S", 1),
            (Leaf::Fn, "f", 2),
            (Leaf::Const, "S", 3),
            (Leaf::Fn, "g", 4),
        ],
    )?;
    let inner = [
        (Leaf::Const, "K", 6),
        (Leaf::Struct, "S", 7),
        (Leaf::Fn, "f", 8),
    ];
    items.push(module_item(alloc, "m", 5, &inner)?)?;
    items.push(module_item(alloc, "f", 9, &[(Leaf::Fn, "h", 10)])?)?;
    Ok(Tree {
        file: Text::copied(alloc, "a.larch")?,
        items,
    })
}

fn second_file(alloc: Global) -> Result<Tree, AllocError> {
    let mut items = leaves(alloc, &[(Leaf::Fn, "main", 1)])?;
    items.push(module_item(alloc, "m", 2, &[(Leaf::Const, "K", 3)])?)?;
    Ok(Tree {
        file: Text::copied(alloc, "main.larch")?,
        items,
    })
}

// A path of the names that are not empty.
fn path(alloc: Global, first: &str, second: &str, third: &str) -> Result<Path, AllocError> {
    let mut more = Items::new(alloc);
    for text in [second, third] {
        if !text.is_empty() {
            more.push(Segment {
                sep: at(1),
                name: name(alloc, text, 1)?,
            })?;
        }
    }
    Ok(Path {
        first: name(alloc, first, 1)?,
        more,
    })
}

fn first_scope(names: &Names) -> usize {
    match names.structs() {
        [item, ..] => item.scope,
        [] => 0,
    }
}

// How many structs, constants, functions and declarations there are, and the number of `main`.
fn counts(names: &Names) -> ([usize; 4], Option<usize>) {
    let counts = [
        names.structs().len(),
        names.consts().len(),
        names.functions().len(),
        names.declared().len(),
    ];
    (counts, names.main_meant())
}

// Each path as it is written in the module `a`, with its meaning.
const PATHS: [(&str, &str, &str, Option<Meaning>); 12] = [
    ("S", "", "", Some(Meaning::Struct(0))),
    ("f", "", "", Some(Meaning::Function(0))),
    ("g", "", "", Some(Meaning::Function(1))),
    ("m", "", "", Some(Meaning::Module)),
    ("K", "", "", None),
    ("a", "S", "", Some(Meaning::Struct(0))),
    ("a", "m", "K", Some(Meaning::Const(1))),
    ("a", "m", "S", Some(Meaning::Struct(1))),
    ("a", "f", "h", None),
    ("main", "main", "", Some(Meaning::Function(4))),
    ("main", "m", "K", Some(Meaning::Const(2))),
    ("b", "S", "", None),
];

// Whether each path has its meaning.
fn all_meant(alloc: Global, names: &Names) -> Result<bool, AllocError> {
    let here = first_scope(names);
    for (first, second, third, meaning) in PATHS {
        let path = path(alloc, first, second, third)?;
        if names.meaning(here, &path) != meaning {
            return Ok(false);
        }
    }
    Ok(true)
}

#[test]
fn each_path_has_its_meaning(rt: HostRuntime) -> Result<(), Fail> {
    let alloc = rt.alloc();
    let trees = [first_file(alloc)?, second_file(alloc)?];
    let mut first = First::new();
    let names = Names::read(alloc, &trees, &mut first)?;
    assert!(rt; all_meant(alloc, &names)?);
    Ok(())
}

#[test]
fn the_second_of_a_name_is_told(rt: HostRuntime) -> Result<(), Fail> {
    let alloc = rt.alloc();
    let trees = [first_file(alloc)?, second_file(alloc)?];
    let mut first = First::new();
    let names = Names::read(alloc, &trees, &mut first)?;
    assert!(rt; counts(&names) == ([2, 3, 5, 13], Some(4)));
    let mut out = Bytes::new(alloc);
    if let Some(told) = first.into_fault() {
        told.into_diag(Text::copied(alloc, "a.larch")?)
            .write(alloc, &mut out)?;
    }
    assert!(rt; out == Bytes::copied(alloc, b"a.larch:1:3: E03 name S defined twice\n")?);
    Ok(())
}
