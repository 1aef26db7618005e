//! The tokens of a text, lexeme by lexeme.

ghost use Rattle.std.specs.Prelude.{◌≡◌, ◌+◌, ◌<◌, ◌^◌, ◌++◌, ◌⊎◌, List, length, Err, IfOk, IfErr, OnOk, OnErr, MatchResult};
ghost use Rattle.td_ast.specs.declared.token.Token.{Token};
ghost use Rattle.td_lexer.specs.declared.error.LexError.{LexError};
ghost use Rattle.td_lexer.specs.Scanner.{tokens_of, Lexes};
ghost use Rattle.td_lexer.specs.Splits.{Splits, IsRefused, HasToken};
ghost use Rattle.td_lexer.specs.ScanSteps.{IsToken, ScanStep, Stops, reach, end_at, tokens_in};

use crate::error::LexError;
use crate::lexeme::{Lexeme, next_lexeme};
use std::alloc::{AllocError, Global};
use td_ast::token::{Span, Token};

/// Where a lexeme ends that stands at a place, or why the text splits no further there. Takes no memory.
fn end_of(lexeme: &Lexeme, at: usize) -> Result<usize, LexError>
    requires { at + reach lexeme.now < 2 ^ 32 }
    ensures { result ≡ end_at lexeme.now at }
{
    match lexeme {
        Lexeme::Trivia(n) => Ok(at + *n),
        Lexeme::Token(_, n) => Ok(at + *n),
        Lexeme::BadByte(n) => Err(LexError::BadByte {
            at: (at + *n) as u32,
        }),
        Lexeme::OpenComment => Err(LexError::OpenComment { at: at as u32 }),
        Lexeme::BigNumber => Err(LexError::BigNumber { at: at as u32 }),
    }
}

/// Puts the token that a lexeme from one place to another is, if it is one, after the others. `AllocError`: it is one,
/// and out of memory.
fn keep(lexeme: Lexeme, from: usize, to: usize, tokens: &mut Vec<Token>) -> Result<(), AllocError>
    requires { (from < 2 ^ 32) × (to < 2 ^ 32) }
    ensures kept { OnOk result (tokens.new.items ≡ tokens.old.items ++ tokens_in lexeme from to) }
    ensures memory { OnErr result (IsToken lexeme) }
{
    if let Lexeme::Token(kind, _) = lexeme {
        let span = Span {
            from: from as u32,
            to: to as u32,
        };
        tokens.push(Token { kind, span })?;
    }
    Ok(())
}

/// Reads what stands at a place, and answers the place after it.
fn step(alloc: Global, bytes: &[u8], at: usize, tokens: &mut Vec<Token>) -> Result<usize, LexError>
    requires inside { at < length bytes.now }
    requires short { length bytes.now < 2 ^ 32 }
    ensures { ScanStep result at bytes.now tokens.old.items tokens.new.items }
{
    let lexeme = next_lexeme(alloc, &bytes[at..])?;
    let end = end_of(&lexeme, at)?;
    keep(lexeme, at, end, tokens)?;
    Ok(end)
}

/// Reads lexeme after lexeme to the end.
#[tactic(auto, using(crate::proofs::Stepping::steps_end))]
fn read_all(alloc: Global, bytes: &[u8]) -> Result<Vec<Token>, LexError>
    requires { length bytes.now < 2 ^ 32 }
    ensures tokens { IfOk result (λ found. Splits bytes.now found.items) }
    ensures stops { IfErr result (Stops bytes.now) }
{
    let mut tokens = Vec::new(alloc);
    let mut at = 0usize;
    while at < bytes.len() {
        at = step(alloc, bytes, at, &mut tokens)?;
    }
    Ok(tokens)
}

/// The tokens of a text of less than 2^32 bytes, each with its span, in time linear in the text.
///
/// White space and comments part tokens and are dropped, and at each place the longest token is taken (the grammar's
/// page, "Tokens"; `Splits` states it). Bytes are arbitrary: a text needs to be neither ASCII nor UTF-8.
///
/// Errors: each names the first place at which the text doesn't split further. `BadByte`: there no white space, comment or
/// token begins, or it is a letter, a digit or `_` directly after a number. `OpenComment`: a `/*` without `*/` begins
/// there. `BigNumber`: a number of 2^64 or more begins there. `NoMemory`: out of memory for a token or a name; so
/// it never comes of a text of white space and comments, nor of one that is refused before its first token.
pub fn lex(alloc: Global, bytes: &[u8]) -> Result<Vec<Token>, LexError>
    requires { length bytes.now < 2 ^ 32 }
    ensures answer { Lexes result (tokens_of bytes.now) }
    ensures tokens { IfOk result (λ found. Splits bytes.now found.items) }
    ensures complete { (tokens : List Token) → Splits bytes.now tokens → MatchResult result (λ found. found.items ≡ tokens) (λ error. error ≡ LexError.NoMemory) }
    ensures refused { (error : LexError) → IsRefused bytes.now error → MatchResult result (λ found. ⊥) (λ why. (why ≡ error) ⊎ (why ≡ LexError.NoMemory)) }
    ensures cause { IfErr result (λ error. (error ≡ LexError.NoMemory) ⊎ IsRefused bytes.now error) }
    ensures memory { result ≡ Err LexError.NoMemory → HasToken bytes.now }
{
    read_all(alloc, bytes)
}
