//! What stands at the beginning of a text.

ghost use Rattle.std.specs.Prelude.{◌≡◌, ◌<◌, ◌^◌, IfOk, OnErr, length};
ghost use Rattle.td_lexer.specs.Scanner as scanner;
ghost use Rattle.td_lexer.specs.ScanSteps.{IsWithin, HoldsName};

use crate::bytes::{is_blank, is_digit, is_letter, line_run};
use crate::comments::block_lexeme;
use crate::keywords::word_lexeme;
use crate::numbers::number_lexeme;
use crate::punctuation::punctuation_lexeme;
use std::alloc::{AllocError, Global};
use td_ast::token::TokenKind;

/// What stands at the beginning of some bytes, and how many bytes it has.
#[derive(Drop)]
pub enum Lexeme {
    /// White space or a comment.
    Trivia(usize),
    /// A token.
    Token(TokenKind, usize),
    /// Nothing begins, or a number goes on, so many bytes further.
    BadByte(usize),
    /// A comment without an end.
    OpenComment,
    /// A number that is too large.
    BigNumber,
}

/// What stands at the beginning of the bytes. `AllocError`: it is a name, and out of memory.
#[tactic(auto, unfolding(crate::specs::Scanner::lexeme))]
fn first_lexeme(alloc: Global, bytes: &[u8]) -> Result<Lexeme, AllocError>
    requires { (0 < length bytes.now) × (length bytes.now < 2 ^ 32) }
    ensures lexeme { IfOk result (λ lexeme. lexeme ≡ scanner.lexeme bytes.now) }
    ensures memory { OnErr result (HoldsName (scanner.lexeme bytes.now)) }
{
    match bytes {
        [] => Ok(Lexeme::Trivia(0)),
        [a, ..] if is_blank(*a) => Ok(Lexeme::Trivia(1)),
        [a, ..] if is_letter(*a) => word_lexeme(alloc, bytes),
        [a, ..] if is_digit(*a) => Ok(number_lexeme(bytes)),
        [b'/', b'/', rest @ ..] => Ok(Lexeme::Trivia(2 + line_run(rest))),
        [b'/', b'*', rest @ ..] => Ok(block_lexeme(rest)),
        _ => Ok(punctuation_lexeme(bytes)),
    }
}

/// What stands at the beginning of the bytes, within them. `AllocError`: it is a name, and out of memory.
pub fn next_lexeme(alloc: Global, bytes: &[u8]) -> Result<Lexeme, AllocError>
    requires { (0 < length bytes.now) × (length bytes.now < 2 ^ 32) }
    ensures lexeme { IfOk result (λ lexeme. lexeme ≡ scanner.lexeme bytes.now) }
    ensures within { IfOk result (IsWithin (length bytes.now)) }
    ensures memory { OnErr result (HoldsName (scanner.lexeme bytes.now)) }
{
    first_lexeme(alloc, bytes)
}
