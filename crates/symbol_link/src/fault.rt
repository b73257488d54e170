//! Why objects cannot be linked.

use lar_bytes::Text;
use thiserror::Error;

/// The first reason, in the order of the variants. Objects are numbered from 0.
#[derive(Debug, Drop, Error)]
pub enum LinkFault {
    /// `second` is the least object that defines an external symbol of an earlier object again, `symbol` the first
    /// such symbol of it, and `first` the object that defines it earlier.
    #[error("{} defined in {first} and {second}", .symbol.as_str())]
    Twice {
        symbol: Text,
        first: u32,
        second: u32,
    },
    /// No object defines this external of an object, which is the first such object, with the first such name in it.
    #[error("{} undefined in {object}", .symbol.as_str())]
    Undefined {
        symbol: Text,
        object: u32,
    },
    /// No object defines `main::main` externally.
    #[error("no entry")]
    NoEntry,
    /// The image's spelling would be longer than 67,108,864 bytes.
    #[error("image over 67108864 bytes")]
    TooLarge,
}
