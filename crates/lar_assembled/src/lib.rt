//! The parts of a typed tree, made of what a checker knows.
//!
//! A checker finds the types of locals, results and bodies as numbers of rows, each where there is no fault in it. Here
//! the items of the typed tree are made of them: a constant from its declaration ([`typed_consts`]), and a function
//! from its declaration, its generics, the types of its locals and of its result, and its body ([`typed_function`]),
//! where each of these is known. [`is_lawful_main`] says whether `main::main` is one that a program may begin with.
//!
//! Contracts speak of numbers of rows. That these stand for the types of the rules is carried over by [`laws`]: a
//! function that is made of what stands for the rules' types stands for the rules' function, and is there exactly where
//! that is. The crate depends on lar_names for declarations by number, on lar_written for what stands for types, and on
//! lar_typed.
#![tactic(auto)]

mod consts;
mod function;
pub mod laws;
mod main_fn;
mod parts;

pub use consts::typed_consts;
pub use function::typed_function;
pub use main_fn::is_lawful_main;
