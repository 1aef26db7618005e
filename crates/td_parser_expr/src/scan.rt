//! Where a limit is passed.

ghost use Rattle.std.specs.Prelude.{◌≡◌, ◌<◌, ◌≤◌, ◌^◌, ◌+◌, ◌-◌, [], length, MatchOption, IfSome};
ghost use Rattle.td_ast.specs.Kinds.{number_of_kind};
ghost use Rattle.td_grammar.specs.Sets.{member};
ghost use Rattle.td_grammar.specs.Scan as spec;

use td_ast::token::{Token, TokenKind};

// Whether the token counts: an operator or an opening parenthesis.
fn is_counted(kind: &TokenKind) -> bool
    ensures { result ≡ member spec.counted (number_of_kind kind.now) }
{
    matches!(
        kind,
        TokenKind::AndAnd
            | TokenKind::OrOr
            | TokenKind::EqualEqual
            | TokenKind::NotEqual
            | TokenKind::LessEqual
            | TokenKind::GreaterEqual
            | TokenKind::ShiftLeft
            | TokenKind::ShiftRight
            | TokenKind::Plus
            | TokenKind::Minus
            | TokenKind::Star
            | TokenKind::Slash
            | TokenKind::Percent
            | TokenKind::Ampersand
            | TokenKind::Bar
            | TokenKind::Caret
            | TokenKind::Tilde
            | TokenKind::Bang
            | TokenKind::Less
            | TokenKind::Greater
            | TokenKind::Question
            | TokenKind::OpenParen
    )
}

// How many parentheses are open after the token; None where an expression ends before it.
fn after(depth: u64, kind: &TokenKind) -> Option<u64>
    requires { depth < 2 ^ 64 - 1 }
    ensures depth { result ≡ spec.after depth (number_of_kind kind.now) }
    ensures within { IfSome result (λ after. after ≤ depth + 1) }
{
    match kind {
        TokenKind::Semicolon
        | TokenKind::OpenBrace
        | TokenKind::CloseBrace
        | TokenKind::OpenBracket
        | TokenKind::CloseBracket => None,
        TokenKind::OpenParen => Some(depth + 1),
        TokenKind::CloseParen => closed(depth),
        TokenKind::Comma => still(depth),
        _ => Some(depth),
    }
}

// One fewer, where there is one.
fn closed(depth: u64) -> Option<u64>
    ensures depth { result ≡ spec.closed depth }
    ensures within { IfSome result (λ after. after ≤ depth + 1) }
{
    if depth == 0 {
        return None;
    }
    Some(depth - 1)
}

// As many, where there is one.
fn still(depth: u64) -> Option<u64>
    ensures depth { result ≡ spec.still depth }
    ensures within { IfSome result (λ after. after ≤ depth + 1) }
{
    if depth == 0 {
        return None;
    }
    Some(depth)
}

/// The tokens from the counted one on before which `limit` counted ones stand in the expression at their front; None
/// where the expression ends before. It looks at no token after the expression's end.
#[tactic(auto, unfolding(td_grammar::specs::Scan::scan))]
pub fn scan(tokens: &[Token], limit: u32) -> Option<&[Token]>
    ensures { MatchOption result (spec.scan 0 limit tokens.now ≡ []) (λ over. (spec.scan 0 limit tokens.now ≡ over.now) × (0 < length over.now)) }
{
    let count = tokens.len() as u64;
    let mut rest = tokens;
    let mut depth = 0;
    let mut left = limit;
    while !rest.is_empty() {
        let Some(after) = after(depth, &rest[0].kind) else {
            return None;
        };
        if is_counted(&rest[0].kind) {
            if left == 0 {
                return Some(rest);
            }
            left -= 1;
        }
        depth = after;
        rest = &rest[1..];
    }
    None
}
