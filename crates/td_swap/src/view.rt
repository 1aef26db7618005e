//! What seats know. These types stand in contracts alone: no value of them is made.

use std::collections::LinkedList;

/// What the publisher's seat knows: how many versions there are, and the number of the one that it published last, 0 before
/// its first publication.
pub struct PublisherView {
    pub count: u64,
    pub number: u64,
}

/// What a seat that loads the version word knows: how many versions there are, how many seats it made, with those that gathered
/// seats made, the numbers that it loaded, the oldest first, and the lists of the seats that were gathered into it, in that order.
pub struct SwapView {
    pub count: u64,
    pub made: u64,
    pub loads: LinkedList<u64>,
    pub ended: LinkedList<LinkedList<u64>>,
}

/// A view of the table: the publisher's, with how many of the seats that load it made; that of a seat that loads; and `Spent`, that of a
/// seat that was gathered.
pub enum View {
    Publisher(PublisherView, u64),
    Swap(SwapView),
    Spent,
}
