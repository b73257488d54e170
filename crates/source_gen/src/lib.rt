//! Sources made from a number: large inputs for tests and demonstrations, the same on every machine.
//!
//! [`sources`] answers a file `main.larch` and so many modules, each of which calls the one before it. Their numbers are drawn from
//! a seed. Its contract is one equation: the files are the definition's (`specs/Sources.antt`), which writes each text down as a
//! concatenation.
//! The crate stands on lar_bytes and lar_source.
#![tactic(auto)]

mod draws;
mod files;
mod texts;

pub use files::sources;

#[cfg(test)]
mod tests;
