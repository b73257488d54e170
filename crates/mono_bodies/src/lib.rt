//! What an item takes from its function's body: how large it is, and its calls.
//!
//! Both are the same for each instance of a function, so the collection of instances takes them once a function: the size of a body
//! ([`body_size`]), and its calls in reading order with the patterns of their arguments ([`body_calls`]). An instance then costs
//! what its patterns cost, and no walk of a tree.
//! The crate stands on lar_source and lar_typed.
#![tactic(auto)]

mod calls;
mod sizes;

pub use calls::{PatternCall, body_calls};
pub use sizes::body_size;

#[cfg(test)]
mod tests;
