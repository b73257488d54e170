//! The commands: each has a table of its options, with their defaults and ranges, and its file words. `build` takes
//! one job so far. Where its words name no number of jobs it has four, or one where make
//! has a jobserver.

ghost use Rattle.std.specs.Prelude.{◌≡◌, ◌≤◌, ◌+◌, length, map, string_bytes, option_map, IfOk};
ghost use Rattle.words.specs.Lines as lines;
ghost use Rattle.words.specs.Commands as spec;

use crate::limit::UnitLimit;
use crate::line::{Choice, Given, line_of};
use crate::names::Names;
use crate::numbers::{is_name, number_in};
use crate::recipe::Recipe;
use crate::sources::{Sources, sources_of};
use lar_bytes::Text;
use std::alloc::{AllocError, Global};

/// A command of the command line, with what its words say.
#[derive(Debug, Drop)]
pub enum Command {
    /// Builds these sources into the image `a.lrpx`.
    Build(Sources),
    /// Checks these sources.
    Check(Sources),
    /// Lists the codegen units of these sources, at most so many.
    Units(Sources, UnitLimit),
    /// Runs the image with this name, for at most so many steps.
    Run(Text, u64),
    /// Lists the object or image with this name.
    Dump(Text),
    /// Links the objects in these files into the image with this name.
    Link(Names, Text),
    /// Generates sources.
    Gen(Recipe),
}

// An option that takes a value.
fn valued(name: &'static str) -> Choice
    ensures { lines.choice_shown result ≡ spec.valued name.now }
{
    Choice {
        name,
        takes_value: true,
    }
}

fn look<'a>(name: &str, given: &[Given<'a>]) -> Option<Given<'a>>
    ensures { option_map lines.given_shown result ≡ lines.look name.now (map lines.given_shown given.now) }
{
    match given {
        [] => None,
        [first, given @ ..] => {
            if first.name == name {
                Some(*first)
            } else {
                look(name, given)
            }
        }
    }
}

// The value that a line gives to an option, or the default.
fn value_or<'a>(default: &'a str, name: &str, given: &[Given<'a>]) -> &'a str
    ensures { result.now ≡ spec.value_or default.now name.now (map lines.given_shown given.now) }
{
    match look(name, given) {
        None => default,
        Some(given) => match given.value {
            None => default,
            Some(value) => value,
        },
    }
}

// The one file word of a line, where it names a file.
fn one_name<'a>(files: &[&'a str]) -> Option<&'a str>
    ensures { option_map (λ name. name.now) result ≡ spec.one_name (map (λ file. file.now) files.now) }
{
    match files {
        [] => None,
        [name, more @ ..] => {
            if more.is_empty() && is_name(name) {
                Some(*name)
            } else {
                None
            }
        }
    }
}

// The number of jobs of a build whose words name none.
fn default_jobs(jobserver: bool) -> &'static str
    ensures { result.now ≡ spec.default_jobs jobserver }
{
    if jobserver { "1" } else { "4" }
}

// build NAME.larch .. --jobs 1
fn build_of(alloc: Global, jobserver: bool, words: &[String]) -> Result<Option<Command>, AllocError>
    ensures { IfOk result (λ found. found ≡ spec.build_of jobserver (map string_bytes words.now)) }
{
    let Some(line) = line_of(alloc, &[valued("jobs")], words)? else {
        return Ok(None);
    };
    let jobs = value_or(default_jobs(jobserver), "jobs", line.given.as_slice());
    let Some(_) = number_in(1, 1, jobs) else {
        return Ok(None);
    };
    let Some(sources) = sources_of(alloc, line.files.as_slice())? else {
        return Ok(None);
    };
    Ok(Some(Command::Build(sources)))
}

// check NAME.larch ..
fn check_of(alloc: Global, words: &[String]) -> Result<Option<Command>, AllocError>
    ensures { IfOk result (λ found. found ≡ spec.check_of (map string_bytes words.now)) }
{
    let Some(line) = line_of(alloc, &[], words)? else {
        return Ok(None);
    };
    let Some(sources) = sources_of(alloc, line.files.as_slice())? else {
        return Ok(None);
    };
    Ok(Some(Command::Check(sources)))
}

// units NAME.larch .. --units N
fn units_of(alloc: Global, words: &[String]) -> Result<Option<Command>, AllocError>
    ensures { IfOk result (λ found. found ≡ spec.units_of (map string_bytes words.now)) }
{
    let Some(line) = line_of(alloc, &[valued("units")], words)? else {
        return Ok(None);
    };
    let value = value_or("16", "units", line.given.as_slice());
    let Some(limit) = number_in(1, 256, value) else {
        return Ok(None);
    };
    let Some(sources) = sources_of(alloc, line.files.as_slice())? else {
        return Ok(None);
    };
    Ok(Some(Command::Units(sources, UnitLimit::new(limit as u16))))
}

// run NAME --steps N
fn run_of(alloc: Global, words: &[String]) -> Result<Option<Command>, AllocError>
    ensures { IfOk result (λ found. found ≡ spec.run_of (map string_bytes words.now)) }
{
    let Some(line) = line_of(alloc, &[valued("steps")], words)? else {
        return Ok(None);
    };
    let Some(name) = one_name(line.files.as_slice()) else {
        return Ok(None);
    };
    let value = value_or("100000000", "steps", line.given.as_slice());
    let Some(steps) = number_in(1, 1_000_000_000_000, value) else {
        return Ok(None);
    };
    Ok(Some(Command::Run(Text::copied(alloc, name)?, steps)))
}

// dump NAME
fn dump_of(alloc: Global, words: &[String]) -> Result<Option<Command>, AllocError>
    ensures { IfOk result (λ found. found ≡ spec.dump_of (map string_bytes words.now)) }
{
    let Some(line) = line_of(alloc, &[], words)? else {
        return Ok(None);
    };
    let Some(name) = one_name(line.files.as_slice()) else {
        return Ok(None);
    };
    Ok(Some(Command::Dump(Text::copied(alloc, name)?)))
}

// Puts the file words behind the names, or answers that one of them names no file.
fn add_names(alloc: Global, names: &mut Names, files: &[&str]) -> Result<bool, AllocError>
    requires { length names.old + length files.now ≤ 256 }
    ensures { IfOk result (λ fine. spec.AddsNames names.old names.new (map (λ file. file.now) files.now) fine) }
{
    match files {
        [] => Ok(true),
        [file, files @ ..] => {
            if !is_name(file) {
                return Ok(false);
            }
            names.push(Text::copied(alloc, file)?)?;
            add_names(alloc, names, files)
        }
    }
}

fn names_of(alloc: Global, files: &[&str]) -> Result<Option<Names>, AllocError>
    ensures { IfOk result (λ found. found ≡ spec.names_of (map (λ file. file.now) files.now)) }
{
    if files.is_empty() || files.len() > 256 {
        return Ok(None);
    }
    let mut names = Names::new(alloc);
    if add_names(alloc, &mut names, files)? {
        Ok(Some(names))
    } else {
        Ok(None)
    }
}

// link NAME.. --out NAME
fn link_of(alloc: Global, words: &[String]) -> Result<Option<Command>, AllocError>
    ensures { IfOk result (λ found. found ≡ spec.link_of (map string_bytes words.now)) }
{
    let Some(line) = line_of(alloc, &[valued("out")], words)? else {
        return Ok(None);
    };
    let Some(names) = names_of(alloc, line.files.as_slice())? else {
        return Ok(None);
    };
    let output = value_or("a.lrpx", "out", line.given.as_slice());
    if !is_name(output) {
        return Ok(None);
    }
    Ok(Some(Command::Link(names, Text::copied(alloc, output)?)))
}

// The recipe that two file words spell.
fn recipe_in(files: &[&str]) -> Option<Recipe>
    ensures { result ≡ spec.recipe_in (map (λ file. file.now) files.now) }
{
    match files {
        [seed, modules] => {
            let Some(seed) = number_in(0, 2_147_483_647, seed) else {
                return None;
            };
            let Some(modules) = number_in(1, 255, modules) else {
                return None;
            };
            Some(Recipe::new(seed as u32, modules as u16))
        }
        _ => None,
    }
}

// gen SEED MODULES
fn gen_of(alloc: Global, words: &[String]) -> Result<Option<Command>, AllocError>
    ensures { IfOk result (λ found. found ≡ spec.gen_of (map string_bytes words.now)) }
{
    let Some(line) = line_of(alloc, &[], words)? else {
        return Ok(None);
    };
    let Some(recipe) = recipe_in(line.files.as_slice()) else {
        return Ok(None);
    };
    Ok(Some(Command::Gen(recipe)))
}

fn command_named(
    alloc: Global,
    jobserver: bool,
    command: &str,
    words: &[String],
) -> Result<Option<Command>, AllocError>
    ensures { IfOk result (λ found. found ≡ spec.command_named jobserver command.now (map string_bytes words.now)) }
{
    if command == "build" {
        build_of(alloc, jobserver, words)
    } else if command == "check" {
        check_of(alloc, words)
    } else if command == "units" {
        units_of(alloc, words)
    } else if command == "run" {
        run_of(alloc, words)
    } else if command == "dump" {
        dump_of(alloc, words)
    } else if command == "link" {
        link_of(alloc, words)
    } else if command == "gen" {
        gen_of(alloc, words)
    } else {
        Ok(None)
    }
}

/// The command that the words name, or nothing where they are none that is served. Whether make has a jobserver decides
/// the number of jobs of a build whose words name none.
pub fn command_of(
    alloc: Global,
    jobserver: bool,
    words: &[String],
) -> Result<Option<Command>, AllocError>
    ensures { IfOk result (λ found. found ≡ spec.command_of jobserver (map string_bytes words.now)) }
{
    match words {
        [] => Ok(None),
        [command, words @ ..] => command_named(alloc, jobserver, command.as_str(), words),
    }
}
