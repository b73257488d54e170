//! The instances and the codegen units of a program, as functions of the program.
//!
//! Code answers by relations: a graph is one of the program (`IsGraphOf` of mono_graph), plans are those of a graph's units (`AreUnits`
//! of mono_items). Both speak of numbers in the table of types that code keeps. The script of a command is plain data, and so says what
//! is put as a function of the program that was read. `collected` of `specs/Collected.antt` is the instances of a program, or its first
//! refused call; `units_listed` of `specs/Units.antt` is the lines of its units.
//!
//! [`laws`] has that these are what the relations say: whatever answer code may give is `collected`, and whatever plans it may make of
//! the graph have these lines. So a command that calls the code has put what its script says.
//! Definitions and lemmas alone. The crate stands on the crates of the graph and of units, and on units_text for lines.
#![tactic(auto)]

pub mod laws;
