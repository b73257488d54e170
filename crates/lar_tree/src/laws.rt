//! What holds of trees and the tokens that they spell, whoever reads them: each law is the contract of a function that does
//! nothing, which a caller calls to have the law.
ghost use Rattle.std.specs.Prelude.{◌≡◌, ◌≤◌, ◌∷◌, ◌++◌, ℕ, List, length};
ghost use Rattle.lar_tree.specs.declared.token.Token.{Token};
ghost use Rattle.lar_tree.specs.Types.{PlainTy, flat_type};
ghost use Rattle.lar_tree.specs.Exprs.{PlainExpr, flat_expr};
ghost use Rattle.lar_tree.specs.Items.{PlainItems, flat_items};
ghost use Rattle.lar_tree.specs.Marks.{tokens_of, marked_program};
ghost use Rattle.lar_tree.specs.Firsts.{expr_first, type_first};
ghost use Rattle.lar_tree.specs.Lawful.{Lawful};
ghost use Rattle.lar_tree.specs.Sizes.{items_size};
ghost use Rattle.lar_tree.specs.Programs.{Spells, Begins, IsFirstFault};

/// A tree fixes the tokens that it spells.
pub fn spelled()
    ensures { (p : PlainItems) (ts : List Token) → Spells p ts → flat_items p ≡ ts }
{}

/// The marks change no token.
pub fn marked_tokens()
    ensures { (p : PlainItems) → tokens_of (marked_program p) ≡ flat_items p }
{}

/// A tree that is spelled by tokens is lawful: it is grouped, and it keeps each limit.
pub fn lawful()
    ensures { (p : PlainItems) (ts : List Token) → Spells p ts → Lawful p }
{}

/// A tree has at most as many statements and expressions as tokens.
pub fn size()
    ensures { (p : PlainItems) → items_size p ≤ length (flat_items p) }
{}

/// The first token of an expression, and of a type, is the first that it spells.
pub fn first_tokens()
    ensures of_expr { (e : PlainExpr) → (rest : List Token) × (flat_expr e ≡ expr_first e ∷ rest) }
    ensures of_type { (t : PlainTy) → (rest : List Token) × (flat_type t ≡ type_first t ∷ rest) }
{}

/// What begins a program begins one with each token less. A program has no first fault, and other tokens have at most one.
pub fn faults()
    ensures front { (ts us : List Token) → Begins (ts ++ us) → Begins ts }
    ensures none { (p : PlainItems) (ts : List Token) (n : ℕ) → Spells p ts → IsFirstFault ts n → ⊥ }
    ensures one { (ts : List Token) (n m : ℕ) → IsFirstFault ts n → IsFirstFault ts m → n ≡ m }
{}
