//! What follows of a source from what the lexer and the parser promise: each law is the contract of a function that does nothing.

ghost use Rattle.std.specs.Prelude.{◌≡◌, ℕ, ◌≤◌, true, List, length};
ghost use Rattle.lar_tree.specs.declared.token.Token.{Token};
ghost use Rattle.lar_tree.specs.Programs.{Spells};
ghost use Rattle.lar_lexer.specs.Lawful.{AreLawful, AreInOrder};
ghost use Rattle.lar_lexer.specs.Piece.{IsName};
ghost use Rattle.lar_typed.specs.Paths.{is_name};
ghost use Rattle.lar_rules.specs.Declared.{Source};
ghost use Rattle.lar_sound.specs.Sources.{IsSource};
ghost use Rattle.fault_order.specs.Places.{AreOrdered};
ghost use Rattle.lar_tree.specs.Items.{flat_items};

/// A name of the lexer is a name of the typed tree.
pub fn names()
    ensures { (bytes : List ℕ) → IsName bytes → is_name bytes ≡ true }
{}

/// A source whose items spell lawful tokens, not too many, is one as the rules ask for.
pub fn parsed()
    ensures { (s : Source) (number : ℕ) (tokens : List Token) → is_name s.module_name ≡ true → Spells s.items tokens → AreLawful number tokens → length tokens ≤ 16777216 → IsSource s }
{}

/// Its tokens are in order where those of the lexer are.
pub fn ordered()
    ensures { (s : Source) (tokens : List Token) → Spells s.items tokens → AreInOrder tokens → AreOrdered (flat_items s.items) }
{}
