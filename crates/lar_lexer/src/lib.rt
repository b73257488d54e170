//! Source text to tokens, and the thin form to its numbers.
//!
//! [`tokens`] cuts a file into tokens, each with its place, or names the first byte at which none can be read; of the kinds that begin
//! at a byte it takes the longest. Its definition is in `specs/Lexed.antt`. `specs/Cut.antt` says the same of bytes alone, as a relation
//! that knows no order of reading, and [`laws::cut`] that the definition keeps it. [`thin`] answers exactly the numbers of a file in the
//! thin form, a `main` of prints, and nothing for any other.
//! The crate stands on lar_bytes, lar_source and lar_tree.
#![tactic(auto)]

mod front;
pub mod laws;
mod lexer;
mod thin_form;

pub use lexer::{tokens, walk};
pub use thin_form::thin;
