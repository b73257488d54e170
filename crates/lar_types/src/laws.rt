//! What an answer of `check` is to the rules: the law is the contract of a function that does nothing.
ghost use Rattle.std.specs.Prelude.{ℕ, List};
ghost use Rattle.lar_rules.specs.Declared.{Source};
ghost use Rattle.lar_types.specs.Answers.{IsRuled};
ghost use Rattle.lar_types.specs.Checking.{checked};

/// The program that is answered is the one that the rules define, and a diagnostic is that of the fault that they tell.
pub fn ruled()
    ensures { (names : List (List ℕ)) (sources : List Source) → IsRuled names sources (checked names sources) }
{
    lar_sound::laws::in_order();
}
