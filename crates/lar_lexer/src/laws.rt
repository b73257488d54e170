//! What holds of the definition of the tokens: a law is the contract of a function that does nothing, which a caller calls to have it.
ghost use Rattle.std.specs.Prelude.{ℕ, List};
ghost use Rattle.lar_lexer.specs.Cut.{IsCut};
ghost use Rattle.lar_lexer.specs.Lexed.{lexed};
ghost use Rattle.lar_lexer.specs.Place.{beginning};

/// The tokens of a file are its pieces, front by front, each the longest piece that begins there, without blanks and comments; and a
/// diagnostic stands at the first place where no piece begins, or where the longest is past a limit. Pieces are said of bytes alone.
pub fn cut()
    ensures { (name : List ℕ) (number : ℕ) (bytes : List ℕ) → IsCut name (beginning number) bytes (lexed name number bytes) }
{}
