//! The grammar as a machine that looks one token ahead, and what follows from it for every list of tokens.
//!
//! The machine has a stack of symbols, what may still come, and goes over the tokens once. A tree's tokens are gone through as the
//! tree is spelled, so it stops at the first token that passes a count; and what it has gone through is the beginning of a tree. So
//! its first fault is the first fault of the grammar. The parser is proved against the machine; nobody else needs it.
//! Two of the laws are the parser's, and name the machine. The others need none of it in their statements: they speak of trees and
//! tokens.
//! The crate stands on lar_tree and has no code that runs.
#![tactic(auto)]

pub mod laws;
