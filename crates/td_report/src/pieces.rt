//! Writing a line by its pieces.

ghost use Rattle.std.specs.Prelude.{◌≡◌, ◌+◌, ◌≤◌, ◌++◌, length, take, flat_map, IfSome};
ghost use Rattle.td_io.specs.States.{Writes};

use td_io::{Sink, WriteFault, put, write_all};

/// A line of at most so many bytes is written at once.
const ROOM: usize = 256;

/// Puts the pieces one behind the other, and says how many bytes they are. None: there is no room for all of them.
fn gather(room: &mut [u8], pieces: &[&[u8]]) -> Option<usize>
    ensures within { IfSome result (λ count. count ≤ length room.new) }
    ensures line { IfSome result (λ count. take count room.new ≡ flat_map (λ piece. piece.now) pieces.now) }
{
    let mut count = 0;
    for piece in pieces {
        if piece.len() > room.len() - count {
            return None;
        }
        put(room, count, piece);
        count += piece.len();
    }
    Some(count)
}

/// Writes the pieces one by one.
fn write_each<O: Sink>(out: &mut O, pieces: &[&[u8]]) -> Result<(), WriteFault>
    ensures { Writes (O.state out.old) (O.state out.new) (flat_map (λ piece. piece.now) pieces.now) result }
{
    for piece in pieces {
        write_all(out, piece)?;
    }
    Ok(())
}

/// Writes the pieces in order: all at once where they are few bytes, so that a line is one call of the system.
pub fn write_pieces<O: Sink>(out: &mut O, pieces: &[&[u8]]) -> Result<(), WriteFault>
    ensures { Writes (O.state out.old) (O.state out.new) (flat_map (λ piece. piece.now) pieces.now) result }
{
    let mut room = [0u8; ROOM];
    match gather(&mut room, pieces) {
        Some(count) => write_all(out, &room[..count]),
        None => write_each(out, pieces),
    }
}
