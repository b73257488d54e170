//! A line of words, sorted into file words and options. `clap` does the sorting: the options of a command are its long
//! options, and the file words its one positional argument.

ghost use Rattle.std.specs.Prelude.{◌≡◌, map, string_bytes, option_map, IfOk, true, false};
ghost use Rattle.clap.specs.Words.{app_of, found_of, rows_of, rule_of};
ghost use Rattle.words.specs.Lines as spec;
ghost use Rattle.words.specs.Reads as reads;
ghost use Rattle.words.specs.Sorting as sorting;

use clap::error::ErrorKind;
use clap::{Arg, ArgAction, ArgMatches, Command};
use std::alloc::{AllocError, Global};

/// An option of a command, with a value or as a flag.
#[derive(Clone, Copy, Debug)]
pub struct Choice {
    pub name: &'static str,
    pub takes_value: bool,
}

/// An option that a line has, with its value where it takes one.
#[derive(Clone, Copy, Debug)]
pub struct Given<'a> {
    pub name: &'a str,
    pub value: Option<&'a str>,
}

/// The file words of a line in order, and the options that it has in the order of the command's table.
#[derive(Drop)]
pub struct Line<'a> {
    pub files: Vec<&'a str>,
    pub given: Vec<Given<'a>>,
}

fn arg_for<'a>(alloc: Global, choice: &Choice) -> Arg<'a>
    ensures rule { rule_of result ≡ reads.rule_for (spec.choice_shown choice.now) }
    ensures local { result.global ≡ false }
{
    let action = if choice.takes_value {
        ArgAction::Set
    } else {
        ArgAction::SetTrue
    };
    Arg::new(alloc, choice.name)
        .long(choice.name)
        .action(action)
}

fn command_for<'a>(alloc: Global, table: &[Choice]) -> Result<Command<'a>, AllocError>
    ensures { IfOk result (λ command. app_of command ≡ reads.app_for (map spec.choice_shown table.now)) }
{
    let mut command = Command::new(alloc, "")
        .no_binary_name(true)
        .disable_help_flag(true)
        .disable_version_flag(true);
    for choice in table {
        command = command.arg(arg_for(alloc, choice))?;
    }
    command.arg(Arg::new(alloc, "").action(ArgAction::Append))
}

// The matches of a line of words, or nothing where `clap` refuses it.
fn matches_for<'a>(
    alloc: Global,
    table: &[Choice],
    words: &'a [String],
) -> Result<Option<ArgMatches<'a>>, AllocError>
    ensures { IfOk result (λ found. reads.Found (map spec.choice_shown table.now) (map string_bytes words.now) (option_map (λ matches. rows_of (found_of matches)) found)) }
{
    let command = command_for(alloc, table)?;
    match command.try_get_matches_from(words) {
        Ok(matches) => Ok(Some(matches)),
        Err(error) => {
            if error.kind() == ErrorKind::OutOfMemory {
                Err(AllocError)
            } else {
                Ok(None)
            }
        }
    }
}

fn is_short(word: &str) -> bool
    ensures { result ≡ spec.is_short word.now }
{
    match word.strip_prefix("-") {
        None => false,
        Some(text) => !text.starts_with("-"),
    }
}

// Whether a word before the word `--` begins with just one `-`.
fn has_short(words: &[String]) -> bool
    ensures { result ≡ spec.has_short (map string_bytes words.now) }
{
    for word in words {
        if word.as_str() == "--" {
            return false;
        }
        if is_short(word.as_str()) {
            return true;
        }
    }
    false
}

fn given_by<'a>(choice: &Choice, text: &'a str) -> Option<Given<'a>>
    ensures { option_map spec.given_shown result ≡ reads.given_by (spec.choice_shown choice.now) text.now }
{
    let name = choice.name;
    if choice.takes_value {
        Some(Given {
            name,
            value: Some(text),
        })
    } else {
        if text == "true" {
            Some(Given { name, value: None })
        } else {
            None
        }
    }
}

fn given_in<'a>(choice: &Choice, matches: &ArgMatches<'a>) -> Option<Given<'a>>
    ensures { option_map spec.given_shown result ≡ reads.given_in (rows_of (found_of matches.now)) (spec.choice_shown choice.now) }
{
    match matches.get_str(choice.name) {
        None => None,
        Some(text) => given_by(choice, text),
    }
}

fn line_in<'a>(
    alloc: Global,
    table: &[Choice],
    matches: &ArgMatches<'a>,
) -> Result<Line<'a>, AllocError>
    ensures { IfOk result (λ line. spec.line_shown line ≡ reads.line_in (map spec.choice_shown table.now) (rows_of (found_of matches.now))) }
{
    let mut line = Line {
        files: Vec::new(alloc),
        given: Vec::new(alloc),
    };
    if let Some(files) = matches.get_strs("") {
        line.files.extend_from_slice(files)?;
    }
    for choice in table {
        if let Some(given) = given_in(choice, matches) {
            line.given.push(given)?;
        }
    }
    Ok(line)
}

// Sorts a line of words, which is what `clap` makes of it but for a word that begins with just one `-`.
fn sorted_line<'a>(
    alloc: Global,
    table: &[Choice],
    words: &'a [String],
) -> Result<Option<Line<'a>>, AllocError>
    requires { spec.is_table (map spec.choice_shown table.now) ≡ true }
    ensures { IfOk result (λ line. option_map spec.line_shown line ≡ spec.line_of (map spec.choice_shown table.now) (map string_bytes words.now)) }
{
    if has_short(words) {
        return Ok(None);
    }
    match matches_for(alloc, table, words)? {
        None => Ok(None),
        Some(matches) => Ok(Some(line_in(alloc, table, &matches)?)),
    }
}

/// Sorts a line of words by the options of its command, or answers nothing where a word is out of place. The error is
/// want of memory alone.
pub fn line_of<'a>(
    alloc: Global,
    table: &[Choice],
    words: &'a [String],
) -> Result<Option<Line<'a>>, AllocError>
    // Names are not empty, none stands twice, and none has a `=`.
    requires table { spec.is_table (map spec.choice_shown table.now) ≡ true }
    requires plain { sorting.has_plain_names (map spec.choice_shown table.now) ≡ true }
    ensures line { IfOk result (λ line. option_map spec.line_shown line ≡ spec.line_of (map spec.choice_shown table.now) (map string_bytes words.now)) }
    // The words spell that line, by the ways to spell its parts, and no other; or they spell none.
    ensures means { IfOk result (λ line. sorting.Means (map spec.choice_shown table.now) (map string_bytes words.now) (option_map spec.line_shown line)) }
{
    sorted_line(alloc, table, words)
}
