//! Buffers to which bytes of a message are copied.

ghost use Rattle.std.specs.Prelude.{◌≡◌, ◌+◌, ◌<◌, ◌≤◌, [], ◌∷◌, ◌++◌, length, map, IfOk, IsOk, OnErr};
ghost use Rattle.td_num.specs.Numbers.{byte_of, places_from};
ghost use Rattle.td_stream.specs.Copies.{empty_with, rooms_of};

use std::alloc::{AllocError, Global};
use std::marker::Model;
use td_num::items::Items;

/// Bytes, and room for so many in all. A contract sees the list and the room.
#[derive(Drop)]
pub struct Buffer {
    bytes: Vec<u8>,
    room: usize,
}

impl Model for Buffer {
    ghost use Rattle.std.specs.Prelude.{◌≤◌, vec_capacity};
    ghost use Rattle.td_stream.specs.Copies.{BufferView};

    ghost Value = { BufferView };

    ghost view = { λ a. record { held = a.bytes.items; room = a.room } };

    ghost invariant = { λ a. a.room ≤ vec_capacity a.bytes };
}

impl Buffer {
    /// No bytes, and room for so many. `AllocError`: there was no memory for it; never for no room.
    pub fn with_room(alloc: Global, room: u32) -> Result<Buffer, AllocError>
        ensures ok { IfOk result (λ buffer. buffer ≡ empty_with room) }
        ensures memory { room ≡ 0 → IsOk result }
    {
        let room = room as usize;
        Ok(Buffer {
            bytes: Vec::with_capacity(alloc, room)?,
            room,
        })
    }

    /// The bytes.
    pub fn as_slice(&self) -> &[u8]
        ensures { result.now ≡ self.now.held }
    {
        self.bytes.as_slice()
    }

    /// For how many bytes there is room in all.
    pub fn room(&self) -> usize
        ensures { result ≡ self.now.room }
    {
        self.room
    }

    /// No bytes any more. The room stays.
    pub fn clear(&mut self)
        ensures held { self.new.held ≡ [] }
        ensures room { self.new.room ≡ self.old.room }
    {
        self.bytes.clear();
    }

    /// The bytes as a list. Takes no memory.
    pub fn into_bytes(self) -> Items<u8>
        ensures { result ≡ self.held }
    {
        Items::of(self.bytes)
    }

    /// One byte more at the end, where there is room. Takes no memory.
    pub fn push(&mut self, byte: u8)
        requires { length self.old.held < self.old.room }
        ensures held { self.new.held ≡ self.old.held ++ byte ∷ [] }
        ensures room { self.new.room ≡ self.old.room }
    {
        self.bytes.push_reserved(byte);
    }

    // The eight bytes of a word more at the end, that of least weight first, where there is room. Takes no memory.
    pub(crate) fn push_word(&mut self, word: u64)
        requires { length self.old.held + 8 ≤ self.old.room }
        ensures held { self.new.held ≡ self.old.held ++ map (byte_of word) (places_from 0 8) }
        ensures room { self.new.room ≡ self.old.room }
    {
        let Ok(()) = self.bytes.extend_from_slice(&word.to_le_bytes()) else {
            unreachable!()
        };
    }
}

/// The copy buffers of a validation, in the order of the entry point's.
#[derive(Drop)]
pub struct Copies {
    pub buffers: Vec<Buffer>,
}

impl Copies {
    /// An empty buffer for each room. `AllocError`: there was no memory for them; never for no rooms.
    pub fn with_rooms(alloc: Global, rooms: &[u32]) -> Result<Copies, AllocError>
        ensures ok { IfOk result (λ copies. copies.buffers.items ≡ map empty_with rooms.now) }
        ensures memory { OnErr result (0 < length rooms.now) }
    {
        let mut buffers = Vec::new(alloc);
        for room in rooms {
            buffers.push(Buffer::with_room(alloc, *room)?)?;
        }
        Ok(Copies { buffers })
    }

    /// No buffer holds a byte any more. The rooms stay.
    pub fn clear(&mut self)
        ensures { self.new.buffers.items ≡ map empty_with (rooms_of self.old.buffers.items) }
    {
        for k in 0..self.buffers.len() {
            self.buffers[k].clear();
        }
    }
}
