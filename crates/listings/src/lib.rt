//! The text of what an image or an object holds: each function with its instructions, and the externals of an object.
//!
//! A listing is some ten times as long as the code, so it is made part by part at the end of a buffer that whoever puts
//! it can empty in between: [`Listed::push_part`] makes one part, and the listing is all of them in order
//! (`specs/Listing`). [`read_listed`] reads what is listed: an object where the bytes begin as one, and else an image.
//! The crate stands on object_format for both, and on the kit's `itoa` for numbers.
#![tactic(auto)]

mod listed;
mod listing;

pub use listed::{Listed, read_listed};

#[cfg(test)]
mod tests;
