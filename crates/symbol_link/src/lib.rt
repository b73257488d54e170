//! The linker: objects become an image.
//!
//! [`link`] places the functions of all objects one after the other and turns each call's number into the place of
//! what it calls, or answers the first of four refusals. Its contract is that of one definition, `linked`, in plain
//! lists, and says function by function what that image is. Stands on object_format's objects, images and table of
//! opcodes, and on lar_bytes.
#![tactic(auto)]

mod defining;
mod definitions;
mod fault;
mod linking;
mod placing;
mod relocating;
mod resolving;
mod sizing;

pub use fault::LinkFault;
pub use linking::link;

#[cfg(test)]
mod tests;
