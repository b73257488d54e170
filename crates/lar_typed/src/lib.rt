//! The typed tree.
#![tactic(auto)]

mod expr;
pub mod laws;
mod op;
mod stmt;
mod tree;

pub use expr::{Node, TypedCall, TypedExpr};
pub use op::{BinaryOp, UnaryOp};
pub use stmt::{Step, TypedStmt};
pub use tree::{TypedConst, TypedFunction, TypedTree};
