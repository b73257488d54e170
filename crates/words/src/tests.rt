//! What words come to at the corners of the rules.

use super::*;
use std::alloc::{AllocError, Global};
use std::test::Fail;

fn owned(alloc: Global, words: &[&str]) -> Result<Vec<String>, AllocError> {
    let mut owned = Vec::new(alloc);
    for word in words {
        owned.push(word.to_string(alloc)?)?;
    }
    Ok(owned)
}

// What a command line comes to, as a text.
fn shown(alloc: Global, words: &[&str]) -> Result<String, AllocError> {
    let words = owned(alloc, words)?;
    match command_of(alloc, false, words.as_slice())? {
        None => "none".to_string(alloc),
        Some(Command::Build(sources)) => {
            let count = sources.as_slice().len();
            format!(in alloc; "build {count}")
        }
        Some(Command::Check(sources)) => {
            let count = sources.as_slice().len();
            format!(in alloc; "check {count}")
        }
        Some(Command::Units(sources, limit)) => {
            let count = sources.as_slice().len();
            let limit = limit.get();
            format!(in alloc; "units {count} {limit}")
        }
        Some(Command::Run(name, steps)) => {
            let name = name.as_str();
            format!(in alloc; "run {name} {steps}")
        }
        Some(Command::Dump(name)) => {
            let name = name.as_str();
            format!(in alloc; "dump {name}")
        }
        Some(Command::Link(names, output)) => {
            let count = names.as_slice().len();
            let output = output.as_str();
            format!(in alloc; "link {count} {output}")
        }
        Some(Command::Gen(recipe)) => {
            let seed = recipe.seed();
            let modules = recipe.modules();
            format!(in alloc; "gen {seed} {modules}")
        }
    }
}

#[test]
fn words_name_sources(rt: HostRuntime) -> Result<(), Fail> {
    let alloc = rt.alloc();
    let cases: [(&[&str], &str); 24] = [
        (&["build", "main.larch", "--jobs", "1"], "build 1"),
        (&["build", "--jobs=1", "main.larch"], "build 1"),
        (&["build", "--jobs", "01", "--", "main.larch"], "build 1"),
        (
            &["build", "a.larch", "main.larch", "--jobs", "1"],
            "build 2",
        ),
        (&["build", "main.larch"], "none"),
        (&["build", "main.larch", "--jobs", "2"], "none"),
        (
            &["build", "main.larch", "main.larch", "--jobs", "1"],
            "none",
        ),
        (&["check", "main.larch"], "check 1"),
        (&["check", "_a9.larch", "b.larch", "Z.larch"], "check 3"),
        (&["check"], "none"),
        (&["check", "main.larch", "--jobs", "1"], "none"),
        (&["check", "b.larch", "a.larch", "b.larch"], "none"),
        (&["check", "main"], "none"),
        (&["check", ".larch"], "none"),
        (&["check", "9a.larch"], "none"),
        (&["check", "a.b.larch"], "none"),
        (&["check", "a.Larch"], "none"),
        (&["check", "while.larch"], "none"),
        (&["check", "larch"], "none"),
        (&["units", "main.larch"], "units 1 16"),
        (
            &["units", "--units=256", "a.larch", "b.larch"],
            "units 2 256",
        ),
        (&["units", "main.larch", "--units", "257"], "none"),
        (&["units", "main.larch", "--units", "0"], "none"),
        (&["units", "--units", "1"], "none"),
    ];
    for (words, wanted) in cases {
        let found = shown(alloc, words)?;
        assert_eq!(rt; found.as_str(), wanted, "words that should be {wanted}");
    }
    Ok(())
}

#[test]
fn words_name_commands(rt: HostRuntime) -> Result<(), Fail> {
    let alloc = rt.alloc();
    let cases: [(&[&str], &str); 44] = [
        (&["run", "a.lrpx"], "run a.lrpx 100000000"),
        (&["run", "a.lrpx", "--steps", "7"], "run a.lrpx 7"),
        (&["run", "--steps=7", "a.lrpx"], "run a.lrpx 7"),
        (&["run", "--steps", "7", "--", "a.lrpx"], "run a.lrpx 7"),
        (
            &["run", "a", "--steps", "1000000000000"],
            "run a 1000000000000",
        ),
        (&["run", "a", "--steps", "00000000000000000001"], "run a 1"),
        (&["run", "help"], "run help 100000000"),
        (&["run", "a", "--steps", "1000000000001"], "none"),
        (&["run", "a", "--steps", "000000000000000000001"], "none"),
        (&["run", "a", "--steps", "0"], "none"),
        (&["run", "a", "--steps="], "none"),
        (&["run", "a", "--steps=-1"], "none"),
        (&["run", "a", "--steps=1=1"], "none"),
        (&["run", "a", "--steps"], "none"),
        (&["run", "a", "--steps", "-"], "none"),
        (&["run", "a", "--steps", "-1"], "none"),
        (&["run", "a", "--steps", "--", "7"], "none"),
        (&["run", "a", "--steps", "1", "--steps", "1"], "none"),
        (&["run", "a", "--steps=1", "--steps=1"], "none"),
        (&["run", "a", "--step", "1"], "none"),
        (&["run", "a", "--=1"], "none"),
        (&["run", "a", "--out", "b"], "none"),
        (&["run", "-"], "none"),
        (&["run", "a", "-s"], "none"),
        (&["run", "--", "-a"], "none"),
        (&["run", "--", "--"], "none"),
        (&["run", "a", "--help"], "none"),
        (&["run", "a", "--version"], "none"),
        (&["run", "a", "b"], "none"),
        (&["run", ".a"], "none"),
        (&["run"], "none"),
        (&["dump", "a"], "dump a"),
        (&["dump", "a", "--steps", "1"], "none"),
        (&["link", "a", "b"], "link 2 a.lrpx"),
        (&["link", "a", "--out", "b.x", "a"], "link 2 b.x"),
        (&["link", "a", "--out=.b"], "none"),
        (&["link", "--out", "b"], "none"),
        (&["gen", "0", "1"], "gen 0 1"),
        (&["gen", "2147483647", "255"], "gen 2147483647 255"),
        (&["gen", "2147483648", "1"], "none"),
        (&["gen", "1", "256"], "none"),
        (&["gen", "1", "0"], "none"),
        (&["gen", "1"], "none"),
        (&[], "none"),
    ];
    for (words, wanted) in cases {
        let found = shown(alloc, words)?;
        assert_eq!(rt; found.as_str(), wanted, "words that should be {wanted}");
    }
    Ok(())
}

#[test]
fn at_most_256_files_are_linked(rt: HostRuntime) -> Result<(), Fail> {
    let alloc = rt.alloc();
    let mut words = owned(alloc, &["link"])?;
    for _ in 0..256 {
        words.push("a".to_string(alloc)?)?;
    }
    assert!(rt; command_of(alloc, false, words.as_slice())?.is_some());
    words.push("a".to_string(alloc)?)?;
    assert!(rt; command_of(alloc, false, words.as_slice())?.is_none());
    Ok(())
}

#[test]
fn a_jobserver_leaves_one_job(rt: HostRuntime) -> Result<(), Fail> {
    let words = owned(rt.alloc(), &["build", "main.larch"])?;
    assert!(rt; command_of(rt.alloc(), true, words.as_slice())?.is_some());
    assert!(rt; command_of(rt.alloc(), false, words.as_slice())?.is_none());
    Ok(())
}

#[test]
fn flags_stand_once(rt: HostRuntime) -> Result<(), Fail> {
    let alloc = rt.alloc();
    let table = [
        Choice {
            name: "units",
            takes_value: true,
        },
        Choice {
            name: "emit",
            takes_value: false,
        },
    ];
    // The words, and how many options and file words they give.
    let cases: [(&[&str], Option<(usize, usize)>); 5] = [
        (&["a", "--emit", "b", "--units=3", "--", "-c"], Some((2, 3))),
        (&["--emit"], Some((1, 0))),
        (&["a", "--emit=x"], None),
        (&["a", "--emit", "--emit"], None),
        (&["a", "--emit", "x"], Some((1, 2))),
    ];
    for (words, wanted) in cases {
        let words = owned(alloc, words)?;
        let found = match line_of(alloc, &table, words.as_slice())? {
            None => None,
            Some(line) => Some((line.given.len(), line.files.len())),
        };
        assert!(rt; found == wanted);
    }
    Ok(())
}
