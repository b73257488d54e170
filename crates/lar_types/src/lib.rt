//! The checker of names and types.
//!
//! [`check`] takes the trees of all files and answers exactly what the rules (lar_rules) define: the program with its
//! types where there is no fault, else the first fault, by file, place and code.
//!
//! It goes over the program once. All names are read first (lar_names), then how deep structs stand in one another
//! (lar_depths), then what is declared of structs and functions (lar_signatures), and then each body in turn
//! (lar_bodies). Each of these notes its faults in one running minimum (lar_told). The rules list the faults in another
//! order, item by item; that both orders have the same first fault is a law (fault_order). A program without a fault
//! has its types, and its tree keeps the facts of a typed tree: that is a law too (lar_sound), so nothing is tested
//! twice.
//!
//! What is asked of the trees is what the lexer and the parser promise of any file (lar_parsed).
#![tactic(auto)]

mod checking;
mod ended;
mod functions;
pub mod laws;
mod main_fn;

pub use checking::check;
