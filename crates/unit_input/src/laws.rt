//! What holds of all inputs and of their texts. The functions do nothing: their contracts are laws, for every reader to cite.
ghost use Rattle.std.specs.Prelude.{◌≡◌, List, ℕ, [], ◌++◌};
ghost use Rattle.unit_input.specs.Inputs.{PlainInput};
ghost use Rattle.unit_input.specs.Rules.{IsInput};
ghost use Rattle.unit_input.specs.Spelling.{spell};

/// Inputs with one text are one input, and no text of an input goes on as that of another.
pub fn texts()
    ensures equal { (x y : PlainInput) → IsInput x → IsInput y → spell x ≡ spell y → x ≡ y }
    ensures whole { (x y : PlainInput) (more : List ℕ) → IsInput x → IsInput y → spell y ≡ spell x ++ more → more ≡ [] }
{}
