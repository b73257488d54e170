//! Reading the calls of a program ends: all instances are found, or a call is refused.
//!
//! What the graph of a program is, is said in mono_graph by two relations: these instances are all (`IsAll`), or this call is the first
//! refused one (`IsRefused`). graph_laws has that a program has at most one answer. That it has one is proved here, whatever the calls
//! of instances, the limit and the roots are ([`laws`]). So what the relations say can be said by a function of the program, and a
//! function is what the script of a command needs: `collected` of program_units goes by the cases of `decided` in
//! `proofs/Decided.antt`.
//!
//! Reading ends since what is found only grows, and never past the limit, and since each instance has finitely many calls. Where all
//! calls of what is found are read and nothing new came, all is found.
//! Lemmas alone, no code. The crate stands on type_table, lar_typed, reach and mono_graph.
#![tactic(auto)]

pub mod laws;
