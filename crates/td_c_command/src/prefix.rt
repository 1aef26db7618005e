//! What may begin names of C.

ghost use Rattle.std.specs.Prelude.{◌≡◌, ◌↔◌, IsTrue};
ghost use Rattle.td_c_command.specs.Prefix as prefixes;
ghost use Rattle.td_c_command.specs.Prefix.{IsPrefix};

// Whether a byte is a letter of the English alphabet.
fn is_letter(b: u8) -> bool
    ensures { result ≡ prefixes.is_letter b }
{
    (b'a' <= b && b <= b'z') || (b'A' <= b && b <= b'Z')
}

// Whether a byte is a letter, a decimal digit or `_`.
fn is_name_byte(b: u8) -> bool
    ensures { result ≡ prefixes.is_name_byte b }
{
    is_letter(b) || (b'0' <= b && b <= b'9') || b == b'_'
}

/// Whether a name may begin names of C: a letter, then letters, digits and `_`.
pub fn is_prefix(name: &[u8]) -> bool
    ensures { IsTrue result ↔ IsPrefix name.now }
{
    match name {
        [first, rest @ ..] => is_letter(*first) && rest.iter().all(|b| is_name_byte(*b)),
        [] => false,
    }
}
