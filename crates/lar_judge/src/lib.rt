//! What is known of an expression, and the rules that find its type and its faults.
//!
//! A [`Judged`] says where an expression begins and what it is with its types; what has a fault in it has no type, and nothing
//! more is said of it. Types are numbers of rows of one table, which grows; a fault goes at once to the running minimum, `First`.
//! Each rule is a small function: it takes what is known of the parts, notes its own faults after theirs, and gives what is known of
//! the whole. Its contract cites the rule of lar_rules: the new table keeps the old rows, what is known stands for what the rule
//! says, and the least fault is that of the one before and the rule's own faults. So who walks the tree pays for one row or two for
//! each expression, and a text of a type is made only for a fault that is kept.
//!
//! What a rule asks of declarations stands in one trait, [`Site`]. The recursion over expressions stands in lar_exprs.
//! The crate depends on lar_rules, lar_told, lar_typed, lar_tree, type_table, type_sizes, lar_source and lar_bytes.
#![tactic(auto)]

mod assertion;
mod callee;
mod fields;
mod fit;
mod here;
mod innermost;
mod judged;
pub mod laws;
mod literals;
mod locals;
mod making;
mod operators;
mod parts;
mod passing;
mod paths;
mod setting;
mod site;

pub use assertion::unless_asserting;
pub use callee::{Callee, call};
pub use fields::field;
pub use fit::{fitting, fitting_if, is_same, label, misfit, misfit_if};
pub use here::Here;
pub use judged::Judged;
pub use literals::{bracket, number, truth};
pub use locals::{Local, Locals};
pub use making::{Made, new_struct};
pub use operators::{binary, bool_type, int_type, unary};
pub use parts::tuple;
pub use passing::{all_fit, all_misfits};
pub use paths::{Env, path};
pub use setting::set_fields;
pub use site::{Part, Site};

#[cfg(test)]
mod tests;
