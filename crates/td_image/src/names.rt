//! How names are spelled.

ghost use Rattle.std.specs.Prelude.{◌≡◌, length, take_while};
ghost use Rattle.std.specs.List.{position_or_len};
ghost use Rattle.td_num.specs.Text.{is_dot};
ghost use Rattle.td_image.specs.Names as names;

use crate::version::{ImageVersion, has_dots};
use td_lexer::is_keyword;
use td_num::text::DOT;

/// Whether a byte is a letter or `_`.
fn is_letter(b: u8) -> bool
    ensures { result ≡ names.is_letter b }
{
    (b'a' <= b && b <= b'z') || (b'A' <= b && b <= b'Z') || b == b'_'
}

/// Whether a byte is a letter, `_` or a digit.
fn is_letter_or_digit(b: u8) -> bool
    ensures { result ≡ names.is_letter_or_digit b }
{
    is_letter(b) || (b'0' <= b && b <= b'9')
}

/// How many letters, digits and `_` stand at the front.
fn word_run(bytes: &[u8]) -> usize
    ensures { result ≡ length (take_while names.is_letter_or_digit bytes.now) }
{
    bytes.iter().take_while(|b| is_letter_or_digit(**b)).count()
}

/// Whether bytes are spelled as a name: a letter or `_`, and then letters, digits and `_`.
fn is_name(text: &[u8]) -> bool
    ensures { result ≡ names.is_name text.now }
{
    match text {
        [first, rest @ ..] => is_letter(*first) && word_run(rest) == rest.len(),
        [] => false,
    }
}

/// Whether bytes are spelled as a name and are no keyword.
fn is_plain(text: &[u8]) -> bool
    ensures { result ≡ names.is_plain text.now }
{
    is_name(text) && !is_keyword(text)
}

/// Where the first dot stands; the length where there is none.
fn dot_of(text: &[u8]) -> usize
    ensures { result ≡ position_or_len is_dot text.now }
{
    text.iter().take_while(|b| !(**b == DOT)).count()
}

/// Whether bytes are two names, no keywords, joined by a dot.
fn are_two_names(text: &[u8]) -> bool
    ensures { result ≡ names.are_two_names text.now }
{
    let dot = dot_of(text);
    dot < text.len() && is_plain(&text[..dot]) && is_plain(&text[dot + 1..])
}

/// Whether bytes are a name of a version.
pub(crate) fn is_image_name(version: ImageVersion, text: &[u8]) -> bool
    ensures { result ≡ names.is_image_name version text.now }
{
    is_name(text) || (has_dots(version) && are_two_names(text))
}
