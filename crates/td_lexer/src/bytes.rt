//! Sorts of bytes, and how many of a sort stand at the beginning.

ghost use Rattle.std.specs.Prelude.{◌≡◌, ◌≤◌, length};
ghost use Rattle.td_lexer.specs.Bytes as sorts;
ghost use Rattle.td_lexer.specs.Bytes.{run};

/// Whether a byte separates tokens: space, tab, line feed or carriage return.
pub(crate) fn is_blank(b: u8) -> bool
    ensures { result ≡ sorts.is_blank b }
{
    b == b' ' || b == b'\t' || b == b'\n' || b == b'\r'
}

/// Whether a byte is a letter or `_`.
pub(crate) fn is_letter(b: u8) -> bool
    ensures { result ≡ sorts.is_letter b }
{
    b.is_ascii_alphabetic() || b == b'_'
}

/// Whether a byte is a decimal digit.
pub(crate) fn is_digit(b: u8) -> bool
    ensures { result ≡ sorts.is_digit b }
{
    b'0' <= b && b <= b'9'
}

/// Whether a word may go on with a byte.
pub(crate) fn is_word_byte(b: u8) -> bool
    ensures { result ≡ sorts.is_word_byte b }
{
    is_letter(b) || is_digit(b)
}

/// Whether a byte is a hexadecimal digit.
fn is_hexadecimal(b: u8) -> bool
    ensures { result ≡ sorts.is_hexadecimal b }
{
    is_digit(b) || (b'a' <= b && b <= b'f') || (b'A' <= b && b <= b'F')
}

/// Whether a word after a bracket may go on with a byte.
fn is_marked_byte(b: u8) -> bool
    ensures { result ≡ sorts.is_marked_byte b }
{
    is_word_byte(b) || b == b'-'
}

/// Whether a word with a mark may begin with a byte.
pub(crate) fn opens(b: u8) -> bool
    ensures { result ≡ sorts.opens b }
{
    b == b'#' || b == b'{' || b == b'['
}

/// How many bytes of a word stand at the beginning.
pub(crate) fn word_run(bytes: &[u8]) -> usize
    ensures run { result ≡ run sorts.is_word_byte bytes.now }
    ensures within { result ≤ length bytes.now }
{
    bytes.iter().take_while(|b| is_word_byte(**b)).count()
}

/// How many bytes of a word after a bracket stand at the beginning.
pub(crate) fn marked_run(bytes: &[u8]) -> usize
    ensures run { result ≡ run sorts.is_marked_byte bytes.now }
    ensures within { result ≤ length bytes.now }
{
    bytes.iter().take_while(|b| is_marked_byte(**b)).count()
}

/// How many decimal digits stand at the beginning.
pub(crate) fn digit_run(bytes: &[u8]) -> usize
    ensures run { result ≡ run sorts.is_digit bytes.now }
    ensures within { result ≤ length bytes.now }
{
    bytes.iter().take_while(|b| is_digit(**b)).count()
}

/// How many hexadecimal digits stand at the beginning.
pub(crate) fn hexadecimal_run(bytes: &[u8]) -> usize
    ensures run { result ≡ run sorts.is_hexadecimal bytes.now }
    ensures within { result ≤ length bytes.now }
{
    bytes.iter().take_while(|b| is_hexadecimal(**b)).count()
}

/// How many bytes stand before the line's end.
pub(crate) fn line_run(bytes: &[u8]) -> usize
    ensures run { result ≡ run sorts.is_in_line bytes.now }
    ensures within { result ≤ length bytes.now }
{
    bytes.iter().take_while(|b| **b != b'\n').count()
}

/// Whether a word goes on at the beginning.
pub(crate) fn goes_on(bytes: &[u8]) -> bool
    ensures { result ≡ sorts.first_is sorts.is_word_byte bytes.now }
{
    match bytes {
        [first, ..] => is_word_byte(*first),
        [] => false,
    }
}
