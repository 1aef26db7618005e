//! What seats know. These types stand in contracts alone: no value of them is made.

use std::collections::LinkedList;

/// One step on one word: the word's number, from 0, and the value that was loaded or stored.
pub enum Access {
    Load(u32, u64),
    Store(u32, u64),
}

/// What a guest's or a reader's seat knows: the words that the buffer opened with, its own number (how many seats were
/// made before it), whether it is a guest's, and its own steps, the oldest first.
pub struct SeatView {
    pub opened: LinkedList<u64>,
    pub number: u64,
    pub guest: bool,
    pub steps: LinkedList<Access>,
}

/// What the host's seat knows: the words that the buffer opened with, how many seats were made, and the seats that were
/// gathered, in that order.
pub struct HostView {
    pub opened: LinkedList<u64>,
    pub made: u64,
    pub ended: LinkedList<SeatView>,
}

/// A view of the table. `Spent` is that of a seat that was gathered.
pub enum View {
    Host(HostView),
    Seat(SeatView),
    Spent,
}
