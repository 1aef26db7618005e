//! Tables of spellings.

ghost use Rattle.std.specs.Prelude.{◌≡◌, bytes_eq};

/// The token whose spelling bytes are, by a table with a line for each; None where they are none of these.
macro_rules! spelled {
    ($bytes:expr;) => {
        None
    };
    ($bytes:expr; $spelling:literal => $kind:expr, $($others:tt)*) => {
        if is($bytes, $spelling) {
            Some($kind)
        } else {
            spelled! { $bytes; $($others)* }
        }
    };
}

pub(crate) use spelled;

/// Whether bytes are those of a spelling.
pub(crate) fn is(bytes: &[u8], spelling: &[u8]) -> bool
    ensures { result ≡ bytes_eq bytes.now spelling.now }
{
    bytes == spelling
}
