//! What is parsed keeps what the rules of names and types ask of sources.
//!
//! The laws of `lar_sound` ask that names are names of the language, that lists and nestings keep their limits, and that a source
//! has at most 16,777,216 tokens. A program does not test this: the lexer promises that its names are lawful, and the parser that
//! the tree spells its tokens, and from the two it follows. No code runs here.
//! The crate depends on fault_order, lar_sound, lar_rules, lar_typed, lar_lexer, lar_tree, lar_source and lar_bytes.
#![tactic(auto)]

pub mod laws;
