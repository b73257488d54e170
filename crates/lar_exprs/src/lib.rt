//! Expressions: the walk over the tree that finds the type of each and the faults in it.
//!
//! The rules stand in lar_judge, one small function each; this crate goes down the tree and calls them. What is known of a part
//! is given to the rule of the whole; a fault goes at once to the running minimum. [`judge`] promises what the rule of
//! lar_rules for all expressions says: what is known stands for it, the table keeps its rows, and the least fault is that of
//! the one before and all faults of the expression, in the order of the definition. That order has the path and the generics of
//! a call or of `new` first, then the parts from left to right, and then what the rule itself finds.
//!
//! The walk goes as deep as the tree and no deeper. What declared names mean is asked of a [`lar_judge::Site`].
//! The crate depends on lar_judge, lar_rules, lar_told, lar_typed, lar_tree, type_table, lar_source and lar_bytes.
#![tactic(auto)]

mod expr;
mod names;

pub use expr::judge;
