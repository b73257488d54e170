//! The intermediate form: what the functions of a unit are between lowering and code. Expressions give words, statements keep
//! words in slots, and calls have the numbers of a unit's functions and externals.
//!
//! An [`IrExpr`] and an [`IrStmt`] are trees, and contracts see them through views as plain trees, over which lowering, the
//! optimiser and code are defined. An [`IrUnit`] keeps by its type what all of these rest on: its slots and calls are in
//! range and its symbols are distinct. [`cost`] counts its statements and expressions. What an operator computes
//! stands here once, for folding and for whatever evaluates an expression.
//! The crate stands on lar_bytes's texts.
#![tactic(auto)]

mod expr;
mod fault;
mod function;
mod operator;
mod stmt;
mod unit;
mod work;

pub use expr::IrExpr;
pub use fault::UnitFault;
pub use function::IrFn;
pub use operator::{Binary, Unary};
pub use stmt::IrStmt;
pub use unit::IrUnit;
pub use work::cost;

#[cfg(test)]
mod tests;
