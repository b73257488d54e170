//! From the bytes of files to the program with its types, or the first diagnostic.
//!
//! What is looked at, in this order: the sum of all files, before any token is read; each file by itself, its tokens and then
//! its tree; then names and types, over all files. The first fault in this order is the answer. The tokens of a file are let go
//! once its tree stands, and the trees once the program stands.
//!
//! [`front`] answers what the definition of the same subject says (`fronted`). The definition takes the one tree that tokens
//! spell: that there is a tree or a first fault, and only one, are laws of lar_grammar.
//! The crate stands on lar_lexer, lar_syntax and lar_types, and on what these stand on.
#![tactic(auto)]

mod joined;
mod parsing;
mod sum;

pub use joined::front;
