//! What every layer of the compiler speaks of: texts, lists of them, bytes, and the answer for want of memory.
//!
//! A [`Text`] and a [`Bytes`] are lists of bytes to a contract, wherever they lie in memory; a text is ASCII. A call that may
//! find no memory beside refusing its input answers an [`OrMemory`], and its contract says by one word, `Answers`, that it is
//! a definition's value or refusal, or want of memory.
//! The crate stands on std alone.
#![tactic(auto)]

mod bytes;
mod memory;
mod short;
mod text;
mod texts;

pub use bytes::Bytes;
pub use memory::OrMemory;
pub use text::Text;
pub use texts::Texts;

#[cfg(test)]
mod tests;
