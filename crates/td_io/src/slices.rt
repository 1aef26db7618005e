//! Parts of slices.

ghost use Rattle.std.specs.Prelude.{◌≡◌, ◌≤◌, ◌+◌, ◌++◌, length, take, drop, min};

/// Copies as many bytes as fit to the beginning of a buffer, and says how many.
pub(crate) fn copy_prefix(bytes: &[u8], buf: &mut [u8]) -> usize
    ensures count { result ≡ min (length buf.old) (length bytes.now) }
    ensures after { buf.new ≡ take result bytes.now ++ drop result buf.old }
{
    let n = buf.len().min(bytes.len());
    let (prefix, _) = buf.split_at_mut(n);
    prefix.copy_from_slice(&bytes[..n]);
    n
}

/// The bytes from place `at` on.
pub(crate) fn rest_at(bytes: &[u8], at: usize) -> &[u8]
    requires { at ≤ length bytes.now }
    ensures { result.now ≡ drop at bytes.now }
{
    &bytes[at..]
}

/// Puts a piece behind the first `count` bytes of a room.
pub fn put(room: &mut [u8], count: usize, piece: &[u8])
    requires { count + length piece.now ≤ length room.old }
    ensures { take (count + length piece.now) room.new ≡ take count room.old ++ piece.now }
{
    let (_, rest) = room.split_at_mut(count);
    let (mine, _) = rest.split_at_mut(piece.len());
    mine.copy_from_slice(piece);
}
