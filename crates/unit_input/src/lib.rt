//! The input of a codegen unit: all that the unit's code depends on, and nothing else.
//!
//! A [`UnitInput`] has the bodies of the unit's functions with constants as values, fields as offsets and widths in words, and calls
//! as numbers of the unit's own two lists: its functions, and the externals, of which it has symbols and widths alone. What its type
//! keeps is said in `specs/Rules.antt`; [`UnitInput::checked`] is the test.
//!
//! [`spell`] gives its one text. Equal texts are of equal inputs, and no text is a strict prefix of another, so a unit whose kept
//! text is its own need not be made again. [`fingerprint`] is the name of a text. Contracts see trees as plain trees, data without
//! boxes and vectors, by the functions of `specs/InputView.antt`.
//! The crate stands on lar_bytes, and on the kit's sqlite_items and sha2.
#![tactic(auto)]

mod digest;
mod expr;
mod function;
mod input;
pub mod laws;
mod spelling;
mod stmt;

pub use digest::fingerprint;
pub use expr::{BinaryOp, UnaryOp, UnitExpr};
pub use function::{ExternalFn, UnitFn};
pub use input::UnitInput;
pub use spelling::spell;
pub use stmt::UnitStmt;
