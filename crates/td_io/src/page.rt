//! A sink of one page of memory.

ghost use Rattle.std.specs.Prelude.{◌≡◌, ◌≤◌, [], Some, length, take};
ghost use Rattle.td_io.specs.Faults.{none_yet};

use crate::faults::Faults;
use crate::slices::put;
use crate::traits::{Failed, Sink};
use std::marker::Model;

/// How many bytes a page has.
const ROOM: usize = 4096;

/// A page of memory, to which texts are written that go out by one write. A write that finds no room fails. A contract sees the
/// bytes that were written, and the faults.
#[derive(Drop)]
pub struct Page {
    room: [u8; ROOM],
    count: usize,
    faults: Faults,
}

impl Model for Page {
    ghost use Rattle.std.specs.Prelude.{take, ◌≤◌};
    ghost use Rattle.td_io.specs.Memory.{PageView};

    ghost Value = { PageView };

    ghost view = { λ s. record { written = take s.count s.room; faults = s.faults } };

    ghost invariant = { λ s. s.count ≤ 4096 };
}

impl Page {
    /// Nothing is written yet. Takes no memory but its own.
    pub fn blank() -> Page
        ensures { result ≡ record { written = []; faults = none_yet } }
    {
        Page {
            room: [0; ROOM],
            count: 0,
            faults: Faults::none_yet(),
        }
    }

    /// How many bytes were written.
    pub fn len(&self) -> usize
        ensures { result ≡ length self.now.written }
    {
        self.count
    }

    /// The bytes that were written.
    pub fn written(&self) -> &[u8]
        ensures { result.now ≡ self.now.written }
    {
        &self.room[..self.count]
    }

    /// Forgets all bytes but the first.
    pub fn cut(&mut self, count: usize)
        requires { count ≤ length self.old.written }
        ensures { self.new.written ≡ take count self.old.written }
    {
        self.count = count;
    }
}

impl Sink for Page {
    ghost state = { λ s. record { written = Some s.written; faults = s.faults } };

    /// Writes as many bytes as there is room for. Takes no memory.
    fn write(&mut self, piece: &[u8]) -> Result<usize, Failed> {
        let count = piece.len().min(ROOM - self.count);
        if count == 0 && !piece.is_empty() {
            self.faults.note_fault();
            return Err(Failed);
        }
        put(&mut self.room, self.count, &piece[..count]);
        self.count += count;
        self.faults.note_work();
        Ok(count)
    }
}
