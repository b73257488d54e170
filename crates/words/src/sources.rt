//! The names of the sources that a command is given, in their order.

ghost use Rattle.std.specs.Prelude.{◌≡◌, ◌≤◌, true, length, map, IfOk};
ghost use Rattle.std.specs.List.{list_all, list_any};
ghost use Rattle.std.specs.Str.{bytes_eq};
ghost use Rattle.words.specs.Sources as spec;

use crate::numbers::{is_digit, is_name};
use lar_bytes::Text;
use lar_tree::Keyword;
use std::alloc::{AllocError, Global};
use std::marker::Model;

/// 1 to 256 different names of sources, which contracts see as the list of them. Each is the name of a module followed by
/// `.larch`.
#[derive(Debug, Drop)]
pub struct Sources {
    names: Vec<Text>,
}

impl Model for Sources {
    ghost use Rattle.std.specs.Prelude.{List, ℕ, ◌≡◌, true};
    ghost use Rattle.words.specs.Sources.{are_sources};

    ghost Value = { List (List ℕ) };

    ghost view = { λ s. s.names.items };

    ghost invariant = { λ s. are_sources s.names.items ≡ true };
}

impl Sources {
    /// The names, in order.
    pub fn as_slice(&self) -> &[Text]
        ensures names { result.now ≡ self.now }
        ensures lawful { spec.are_sources result.now ≡ true }
    {
        self.names.as_slice()
    }
}

fn begins_word(byte: u8) -> bool
    ensures { result ≡ spec.begins_word byte }
{
    (byte >= b'A' && byte <= b'Z') || (byte >= b'a' && byte <= b'z') || byte == b'_'
}

fn is_in_word(byte: u8) -> bool
    ensures { result ≡ spec.is_in_word byte }
{
    begins_word(byte) || is_digit(byte)
}

fn are_in_word(bytes: &[u8]) -> bool
    ensures { result ≡ list_all spec.is_in_word bytes.now }
{
    bytes.iter().all(|byte| is_in_word(*byte))
}

fn is_word(bytes: &[u8]) -> bool
    ensures { result ≡ spec.is_word bytes.now }
{
    match bytes {
        [] => false,
        [first, more @ ..] => begins_word(*first) && are_in_word(more),
    }
}

fn is_module(name: &[u8]) -> bool
    ensures { result ≡ spec.is_module name.now }
{
    is_word(name) && name.len() <= 64 && Keyword::of(name).is_none()
}

// Whether a word is the name of a source.
fn is_source(word: &str) -> bool
    ensures { result ≡ spec.is_source word.now }
{
    let bytes = word.as_bytes();
    let (module, ending) = bytes.split_at(bytes.len().saturating_sub(6));
    is_name(word) && ending == b".larch".as_slice() && is_module(module)
}

// Whether one of the words is this name.
fn is_among(name: &str, files: &[&str]) -> bool
    ensures { result ≡ list_any (λ other. bytes_eq other name.now) (map (λ file. file.now) files.now) }
{
    match files {
        [] => false,
        [file, files @ ..] => *file == name || is_among(name, files),
    }
}

// There are at most 256 names, so each is compared with all others.
fn are_different(files: &[&str]) -> bool
    ensures { result ≡ spec.are_different (map (λ file. file.now) files.now) }
{
    match files {
        [] => true,
        [name, files @ ..] => !is_among(name, files) && are_different(files),
    }
}

// Puts the file words after the names, or answers that one of them is no name of a source.
fn add_sources(alloc: Global, names: &mut Vec<Text>, files: &[&str]) -> Result<bool, AllocError>
    ensures { IfOk result (λ fine. spec.AddsSources names.old.items names.new.items (map (λ file. file.now) files.now) fine) }
{
    match files {
        [] => Ok(true),
        [file, files @ ..] => {
            if !is_source(file) {
                return Ok(false);
            }
            names.push(Text::copied(alloc, file)?)?;
            add_sources(alloc, names, files)
        }
    }
}

/// The file words as names of sources, where they are that.
pub(crate) fn sources_of(alloc: Global, files: &[&str]) -> Result<Option<Sources>, AllocError>
    ensures { IfOk result (λ found. found ≡ spec.sources_of (map (λ file. file.now) files.now)) }
{
    if files.is_empty() || files.len() > 256 || !are_different(files) {
        return Ok(None);
    }
    let mut names = Vec::with_capacity(alloc, files.len())?;
    if add_sources(alloc, &mut names, files)? {
        Ok(Some(Sources { names }))
    } else {
        Ok(None)
    }
}
