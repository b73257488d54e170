//! What holds of all lowered functions. The functions do nothing: their contracts are laws, for every reader to cite.
ghost use Rattle.std.specs.Prelude.{◌≡◌, ◌≤◌, ℕ, true, false, Ok};
ghost use Rattle.unit_input.specs.Exprs as input;
ghost use Rattle.unit_input.specs.Stmts as input_stmt;
ghost use Rattle.unit_input.specs.Widths.{Scope, width};
ghost use Rattle.unit_input.specs.Inputs.{PlainInput};
ghost use Rattle.unit_input.specs.Rules.{is_expr, are_stmts, IsInput};
ghost use Rattle.unit_ir.specs.Units.{PlainUnit, IsUnit};
ghost use Rattle.unit_ir.specs.Widths.{Gives, Suit};
ghost use Rattle.unit_lower.specs.LoweredUnit.{lowered};
ghost use Rattle.unit_lower.specs.Callees.{signature};
ghost use Rattle.unit_lower.specs.Slots.{local_slots};
ghost use Rattle.unit_lower.specs.Lowering.{lower, lower_stmts};
ghost use Rattle.unit_lower.specs.Wide.{is_wide, are_wide_stmts};

/// What an expression becomes gives just as many words as the expression has, and what a body becomes takes as many words at each place
/// as are given there. All slots are below the next fresh one.
pub fn widths()
    ensures expressions { (s : Scope) (e : input.PlainExpr) (k : ℕ) → is_expr s e ≡ true → is_wide s e ≡ false → local_slots s ≤ k → Gives (signature s) (lower s e k).next (lower s e k).made (width s e) }
    ensures bodies { (s : Scope) (body : input_stmt.PlainStmts) (k : ℕ) → are_stmts s body ≡ true → are_wide_stmts s body ≡ false → local_slots s ≤ k → (lower_stmts s body k).next ≤ 255 → Suit (signature s) (lower_stmts s body k).next s.result (lower_stmts s body k).made }
{}

/// Where an input is lowered to a unit, this keeps all facts of the intermediate form: slots and calls are in range, no function has more
/// than 255 slots, and symbols are distinct.
pub fn units()
    ensures { (x : PlainInput) (u : PlainUnit) → IsInput x → lowered x ≡ Ok u → IsUnit u }
{}
