//! Numbers.

ghost use Rattle.std.specs.Prelude.{◌≡◌, ◌<◌, ◌≤◌, ◌+◌, ◌^◌, SomeIff, length};
ghost use Rattle.td_lexer.specs.Bytes as sorts;
ghost use Rattle.td_lexer.specs.Numerals as numerals;
ghost use Rattle.td_lexer.specs.Scanner as scanner;

use crate::bytes::{digit_run, goes_on, hexadecimal_run};
use crate::lexeme::Lexeme;
use td_ast::token::{Base, TokenKind};

/// The value of a digit, a hexadecimal one in either case.
fn digit_value(b: u8) -> u64
    ensures { result ≡ sorts.digit_value b }
{
    if b < b'A' {
        u64::from(b.saturating_sub(b'0'))
    } else if b < b'a' {
        u64::from(b - (b'A' - 10))
    } else {
        u64::from(b - (b'a' - 10))
    }
}

/// The number that digits spell in a base, where it is below 2^64.
fn value(radix: u64, digits: &[u8]) -> Option<u64>
    requires { 0 < radix }
    ensures { SomeIff result (sorts.value_of radix digits.now < 2 ^ 64) (sorts.value_of radix digits.now) }
{
    let mut n = 0u64;
    for d in digits {
        let Some(shifted) = n.checked_mul(radix) else {
            return None;
        };
        let Some(next) = shifted.checked_add(digit_value(*d)) else {
            return None;
        };
        n = next;
    }
    Some(n)
}

/// The value of a number as it is spelled, where it is below 2^64.
fn numeral_value(base: Base, spelling: &[u8]) -> Option<u64>
    ensures { SomeIff result (numerals.numeral_value base spelling.now < 2 ^ 64) (numerals.numeral_value base spelling.now) }
{
    match base {
        Base::Decimal => value(10, spelling),
        Base::Hexadecimal => value(16, spelling.get(2..).unwrap_or(&[])),
    }
}

/// The lexeme for a number in a base, which is the first so many of the bytes.
fn number_ends(base: Base, len: usize, bytes: &[u8]) -> Lexeme
    requires { len ≤ length bytes.now }
    ensures { result ≡ scanner.number_ends base len bytes.now }
{
    if goes_on(&bytes[len..]) {
        return Lexeme::BadByte(len);
    }
    match numeral_value(base, &bytes[..len]) {
        Some(n) => Lexeme::Token(TokenKind::Number(n, base), len),
        None => Lexeme::BigNumber,
    }
}

/// How many hexadecimal digits stand after `0x` or `0X`; 0 where neither stands at the beginning.
fn hexadecimal_digits(bytes: &[u8]) -> usize
    ensures digits { result ≡ scanner.hexadecimal_digits bytes.now }
    ensures within { 0 < result → result + 2 ≤ length bytes.now }
{
    match bytes {
        [b'0', b'x' | b'X', rest @ ..] => hexadecimal_run(rest),
        _ => 0,
    }
}

/// The number at the beginning of bytes, of which the first is a digit.
#[tactic(auto, unfolding(crate::specs::Scanner::number_lexeme))]
pub(crate) fn number_lexeme(bytes: &[u8]) -> Lexeme
    requires { length bytes.now < 2 ^ 32 }
    ensures { result ≡ scanner.number_lexeme bytes.now }
{
    let digits = hexadecimal_digits(bytes);
    if digits == 0 {
        number_ends(Base::Decimal, digit_run(bytes), bytes)
    } else {
        number_ends(Base::Hexadecimal, 2 + digits, bytes)
    }
}
