//! The tokens of a text are its splitting.

ghost use Rattle.std.specs.Prelude.{◌≡◌, ℕ, List, ◌↔◌, Ok, Err};
ghost use Rattle.td_ast.specs.declared.token.Token.{Token};
ghost use Rattle.td_lexer.specs.declared.error.LexError.{LexError};
ghost use Rattle.td_lexer.specs.Scanner.{tokens_of};
ghost use Rattle.td_lexer.specs.Splits.{Splits, IsRefused};

/// A law, and no work: a text has tokens exactly where it splits into white space, comments and these tokens, and it is
/// refused exactly where it splits up to a place and there no further, for the cause that is answered.
pub fn tokens_are_the_splitting()
    ensures tokens { (text : List ℕ) (tokens : List Token) → (tokens_of text ≡ Ok tokens) ↔ Splits text tokens }
    ensures refusals { (text : List ℕ) (error : LexError) → (tokens_of text ≡ Err error) ↔ IsRefused text error }
{}
