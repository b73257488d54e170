//! Statements: what each declares, the faults in it, and what it is with its types.
//!
//! Each rule is a small function whose contract cites the rule of lar_rules with the same subject. It judges its expressions by
//! the walk of lar_exprs, notes the faults in the order of the definition, and gives the typed statement where there is no
//! fault in it. Only `let` changes the [`State`]: it gives the next number to its local, which hides all others of its name
//! from then on. Whether the place of an assignment is a place, and which local and steps it is, is found by two walks over
//! that expression alone.
//!
//! Rules of blocks, of `if` and of `while` stand in lar_bodies, which goes down the tree.
//! The crate depends on lar_exprs, lar_judge, lar_rules, lar_told, lar_typed, lar_tree, type_table, lar_source and lar_bytes.
#![tactic(auto)]

mod assign;
mod context;
mod local;
mod outcome;
mod place;
mod returns;
mod state;
mod target;
mod valued;

pub use assign::expr_done;
pub use context::{Context, judged};
pub use local::let_done;
pub use outcome::{return_done, unit_type};
pub use returns::block_returns;
pub use state::State;
pub use valued::{assert_done, condition, print_done};
