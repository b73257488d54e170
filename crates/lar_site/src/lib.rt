//! Where the body of a function is written: the answers to what expressions and statements ask of declarations.
//!
//! The rules of expressions (lar_judge) ask by one trait, `Site`: what a path means, which part stands behind a dot, what is known of
//! the function that is called and of the struct that `new` makes, what a written type is. A [`BodySite`] answers by the names of all
//! declarations (lar_names), by their signatures (lar_signatures) and by the rules of written types (lar_written), each exactly as the
//! rules say. A declaration is found by one look into a list by its number; a field is looked for among the fields of its struct, of
//! which there are at most 64.
//!
//! The types of a signature may have the generics of the declaration. Where it is used, these are replaced by what is given there, by
//! `Types::substitute`, which remembers what it replaced: so a use costs as many look-ups as the signature has types, however large
//! these are.
//!
//! The crate depends on lar_judge for what is asked, and on lar_signatures, lar_written, lar_names and type_table for the answers.
#![tactic(auto)]

mod body_site;
mod calling;
mod making;
mod printing;
mod selecting;
mod under;

pub use body_site::BodySite;
pub use printing::generic_texts;
