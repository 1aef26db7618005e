//! Comments.

ghost use Rattle.std.specs.Prelude.{◌≡◌, ◌≤◌, ◌<◌, ◌^◌, IfSome, length};
ghost use Rattle.td_lexer.specs.Scanner as scanner;

use crate::lexeme::Lexeme;

/// Whether a comment's end stands at the beginning.
fn closes(bytes: &[u8]) -> bool
    ensures { result ≡ scanner.closes bytes.now }
{
    match bytes {
        [b'*', b'/', ..] => true,
        _ => false,
    }
}

/// How many bytes there are up to and with the first end of a comment; None where it has no end.
#[tactic(auto, using(crate::proofs::Within::closes_two))]
fn close_of(bytes: &[u8]) -> Option<usize>
    requires { length bytes.now < 2 ^ 32 }
    ensures place { result ≡ scanner.close_of bytes.now }
    ensures within { IfSome result (λ n. n ≤ length bytes.now) }
{
    let mut passed = 0usize;
    let mut rest = bytes;
    while !rest.is_empty() {
        if closes(rest) {
            return Some(passed + 2);
        }
        passed += 1;
        rest = &rest[1..];
    }
    None
}

/// The comment of which these bytes stand after its `/*`.
pub(crate) fn block_lexeme(bytes: &[u8]) -> Lexeme
    requires { length bytes.now < 2 ^ 32 }
    ensures { result ≡ scanner.closed (scanner.close_of bytes.now) }
{
    match close_of(bytes) {
        Some(n) => Lexeme::Trivia(n + 2),
        None => Lexeme::OpenComment,
    }
}
