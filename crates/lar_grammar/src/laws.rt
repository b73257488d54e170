//! What holds of trees and lists of tokens by the grammar: each law is the contract of a function that does nothing, which a caller
//! calls to have the law.
ghost use Rattle.std.specs.Prelude.{◌≡◌, ◌+◌, ◌⊎◌, ℕ, List, [], ◌∷◌, Some, None, length};
ghost use Rattle.lar_tree.specs.declared.token.Token.{Token};
ghost use Rattle.lar_tree.specs.Spelling.{kinds};
ghost use Rattle.lar_tree.specs.Items.{PlainItems, GroupedItems, flat_items};
ghost use Rattle.lar_tree.specs.Programs.{Spells, IsFirstFault};
ghost use Rattle.lar_grammar.specs.Symbols.{program};
ghost use Rattle.lar_grammar.specs.Machine.{fault};
ghost use Rattle.lar_grammar.specs.Unplaced.{unplaced_items};

/// The grammar is unambiguous: tokens have at most one tree.
pub fn one_tree()
    ensures { (p q : PlainItems) (ts : List Token) → Spells p ts → Spells q ts → p ≡ q }
{}

/// The grammar is unambiguous: trees whose tokens are of the same kinds differ in the places of their tokens alone.
pub fn one_tree_by_kinds()
    ensures { (p q : PlainItems) → GroupedItems p → GroupedItems q → kinds (flat_items p) ≡ kinds (flat_items q) → unplaced_items p ≡ unplaced_items q }
{}

/// Tokens are a program, or they have a first fault.
pub fn decided()
    ensures { (ts : List Token) → ((p : PlainItems) × Spells p ts) ⊎ ((n : ℕ) × IsFirstFault ts n) }
{}

/// Where the machine stops, with these tokens left, the first fault stands.
pub fn first_fault()
    ensures { (ts rest : List Token) (n : ℕ) → fault ts None (program ∷ []) ≡ Some rest → n + length rest ≡ length ts → IsFirstFault ts n }
{}

/// Where it does not stop, a tree of the grammar with these tokens is spelled by them.
pub fn spelled()
    ensures { (ts : List Token) (p : PlainItems) → GroupedItems p → flat_items p ≡ ts → fault ts None (program ∷ []) ≡ None → Spells p ts }
{}
