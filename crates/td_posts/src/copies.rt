//! Copies that go into the room that was taken for a reply.

ghost use Rattle.std.specs.Prelude.{◌≡◌, ◌≤◌, length, take};
ghost use Rattle.td_stream.specs.Copies.{held_by, rooms_of};
ghost use Rattle.td_posts.specs.Posts.{HaveRoom};

use td_stream::copies::Buffer;

/// Puts bytes into a buffer in place of those that it holds. Takes no memory.
fn refill(buffer: &mut Buffer, bytes: &[u8])
    requires { length bytes.now ≤ buffer.old.room }
    ensures held { buffer.new.held ≡ bytes.now }
    ensures room { buffer.new.room ≡ buffer.old.room }
{
    buffer.clear();
    for k in 0..bytes.len() {
        buffer.push(bytes[k]);
    }
}

/// Puts what the first of some buffers hold into copies that have room for it, one for each. Takes no memory.
pub fn keep_copies(buffers: &[Buffer], copies: &mut [Buffer])
    requires { HaveRoom (rooms_of copies.old) (held_by (take (length copies.old) buffers.now)) }
    ensures held { held_by copies.new ≡ held_by (take (length copies.old) buffers.now) }
    ensures rooms { rooms_of copies.new ≡ rooms_of copies.old }
{
    for k in 0..copies.len() {
        refill(&mut copies[k], buffers[k].as_slice());
    }
}
