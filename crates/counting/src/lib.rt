//! Counting in lists: how often a number stands in one, and what a list weighs in all.
//!
//! Definitions and lemmas alone. The crates that speak of bags of bytes, of jobs that are out or of
//! shares count with these words, so that a count made by one is a count that another understands.
#![tactic(auto)]
