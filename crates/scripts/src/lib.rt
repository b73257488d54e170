//! Scripts: what a command asks of the outside, call by call, and what it makes of the answers. Definitions and
//! lemmas alone; no code runs.
//!
//! A script is a tree. A node is a call, with what comes after each of its answers, or an end. `Follows` says that the
//! calls between two states are those of a script, in order, each with its answer, or a prefix of them where memory was
//! wanted or a put failed. A command's contract is to be that it follows its script, and a script is short enough to be
//! checked by eye. What a reader wants to know besides follows by laws that are proved once for every script:
//!
//! - `calm`: where the files tell what they hold and no call fails, the calls give what the script performed on a map
//!   gives (`perform`);
//! - `along`: how it ends, by what was called and what failed on the way (`Along`), with the counts of the objects that
//!   tell so;
//! - `follows_on`, `follows_err`: a script after another is followed where both are, and where the first ends early.
//!
//! A kind of call is a case of `Ask`, with its `Answer`, its `Step` and what it adds to a `History`; no law goes by
//! kinds but in the lemmas on one step. The crate depends on files, sinks, journal and outside for what calls leave.
#![tactic(auto)]
