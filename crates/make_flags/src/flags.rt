//! The answer, and how it comes from the words: the first one tells whether make is run dry, and the last option that names a
//! jobserver decides which it is.

ghost use Rattle.std.specs.Prelude.{◌≡◌, ◌+◌, ◌^◌, ◌<◌, nat_eq, if◌then◌else◌, drop, length, option_copied};
ghost use Rattle.make_flags.specs.Flags as spec;
ghost use Rattle.make_flags.specs.Words as words;
ghost use Rattle.std.specs.List.{list_any, starts_with};

use crate::number::{Number, number_of};
use crate::words::first_word;

/// What `MAKEFLAGS` says.
#[derive(Clone, Copy, Debug, PartialEq, Eq)]
pub struct Flags {
    /// Whether make is run dry, as `make -n` is, so that a program may stop without doing anything.
    pub stop: bool,
    /// Which jobserver make has.
    pub jobserver: Jobserver,
}

/// The jobserver that `MAKEFLAGS` names.
#[derive(Clone, Copy, Debug, PartialEq, Eq)]
pub enum Jobserver {
    /// None that is understood.
    Absent,
    /// One that make withholds from this program.
    Disabled,
    /// A named pipe. Its path is the text's bytes from number `from` up to, but not including, number `to`, counted from 0.
    Fifo { from: u64, to: u64 },
    /// A pipe, with the descriptors to read and to write.
    Pair { r: u32, w: u32 },
}

/// Reads the text of `MAKEFLAGS`, or its absence, in one pass. It takes no memory.
pub fn read_flags(text: Option<&str>) -> Flags
    ensures { result ≡ spec.flags_of (option_copied text.entry) }
{
    match text {
        None => Flags {
            stop: false,
            jobserver: Jobserver::Absent,
        },
        Some(text) => Flags {
            stop: stops(text),
            jobserver: jobserver_in(text),
        },
    }
}

fn has_n(word: &str) -> bool
    ensures { result ≡ list_any spec.is_n word.now }
{
    word.as_bytes().iter().any(|byte| *byte == b'n')
}

// Whether a word has the letter `n` and no `-` before its letters.
fn is_dry(word: &str) -> bool
    ensures { result ≡ spec.is_dry word.now }
{
    !word.starts_with("-") && has_n(word)
}

// Whether the first word says that make is run dry.
fn stops(text: &str) -> bool
    ensures { result ≡ spec.stops (words.words_of text.now) }
{
    let (word, _) = first_word(text);
    is_dry(word)
}

// The jobserver of a pair of numbers, of which each may be no number.
fn jobserver_of_pair(r: Option<Number>, w: Option<Number>) -> Jobserver
    ensures { result ≡ spec.jobserver_of_pair r w }
{
    let (Some(r), Some(w)) = (r, w) else {
        return Jobserver::Absent;
    };
    if r.is_negative() || w.is_negative() {
        Jobserver::Disabled
    } else {
        Jobserver::Pair {
            r: r.digits,
            w: w.digits,
        }
    }
}

// The jobserver of a value R,W.
fn pair_of(value: &str) -> Jobserver
    ensures { result ≡ spec.pair_of value.now }
{
    match value.split_once(',') {
        Some((r, w)) => jobserver_of_pair(number_of(r), number_of(w)),
        None => Jobserver::Absent,
    }
}

// The jobserver of an option's value, which begins at this byte of the text.
fn jobserver_of(at: u64, value: &str) -> Jobserver
    requires { at + length value.now < 2 ^ 64 }
    ensures { result ≡ spec.jobserver_of at value.now }
{
    if value.starts_with("fifo:") && value.len() > 5 {
        Jobserver::Fifo {
            from: at + 5,
            to: at + value.len() as u64,
        }
    } else {
        pair_of(value)
    }
}

// The jobserver that a word names, where it is the option that names one, or else the one that was named before.
fn named_after(named: Jobserver, at: u64, word: &str) -> Jobserver
    requires { at + length word.now < 2 ^ 64 }
    ensures { result ≡ (if starts_with nat_eq word.now spec.auth then spec.jobserver_of (at + 17) (drop 17 word.now) else named) }
{
    match word.strip_prefix("--jobserver-auth=") {
        Some(value) => jobserver_of(at + 17, value),
        None => named,
    }
}

// The last jobserver that an option names.
fn jobserver_in(text: &str) -> Jobserver
    ensures { result ≡ spec.jobserver_among (spec.options_of (words.words_of text.now)) }
{
    let mut named = Jobserver::Absent;
    let mut at = 0u64;
    let mut rest = text;
    loop {
        let (word, more) = first_word(rest);
        if word == "--" {
            return named;
        }
        named = named_after(named, at, word);
        match more {
            None => return named,
            Some(more) => {
                at += word.len() as u64 + 1;
                rest = more;
            }
        }
    }
}
