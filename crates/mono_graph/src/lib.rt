//! What the graph of a program is: the instances that its roots reach, and the calls between them.
//!
//! The roots are `main::main` and the exported functions without generics, in byte order of their symbols. From there instances are
//! found by reading calls: those of what is found so far, by instance and then in reading order, one after another. A call names a
//! function and the arguments for its generics; under an instance, what the caller stands for is put into these arguments. A call
//! with an argument that is too large is refused, and so is one that names a new instance where as many as the limit are found.
//!
//! `specs/Instances.antt` has instances as plain data, their calls and the roots; `specs/Reading.antt` what is found when so many
//! calls are read; `specs/Graphs.antt` which graph a program has, or which call of it is refused. What follows from
//! these definitions stands in `graph_laws`.
//! The crate stands on lar_bytes, lar_source, type_table, type_sizes, lar_typed, reach, text_order and mono_items.
#![tactic(auto)]

mod refused;

pub use refused::RefusedCall;
