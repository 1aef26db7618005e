//! Room for the lists of a message in pieces, kept from one message to the next.

ghost use Rattle.std.specs.Prelude.{◌≡◌, ◌≤◌, ◌<◌, ◌^◌, [], IfOk, length};
ghost use Rattle.td_stream.specs.Layouts.{length_in};

use std::alloc::{AllocError, Global};
use std::marker::Model;
use std::mem;
use td_num::items::Items;
use td_stream::layout::{Layout, MOST_PIECES};
use td_stream::stretch::Stretch;

/// The list of the last message's pieces and its layout, of which the next one uses the memory. In a contract one is like another, so that
/// a call which only takes room leaves a slot as it was.
#[derive(Drop)]
pub struct PieceRoom {
    list: Option<Items<Stretch>>,
    layout: Layout,
}

impl Model for PieceRoom {
    ghost Value = { Unit {0} };

    ghost view = { λ r. tt };
}

impl PieceRoom {
    /// No room. Takes no memory.
    pub fn none() -> PieceRoom {
        PieceRoom {
            list: None,
            layout: Layout::plain(0),
        }
    }

    /// The list, emptied.
    pub fn take_list(&mut self, alloc: Global) -> Items<Stretch>
        ensures { result ≡ [] }
    {
        match mem::replace(&mut self.list, None) {
            Some(mut list) => {
                list.clear();
                list
            }
            None => Items::new(alloc),
        }
    }

    /// The layout of these stretches; their list is kept. `AllocError`: there was no memory for it.
    pub fn lay(&mut self, alloc: Global, list: Items<Stretch>) -> Result<Layout, AllocError>
        requires few { length list ≤ MOST_PIECES }
        requires short { length_in list < 2 ^ 32 }
        ensures { IfOk result (λ layout. layout ≡ list) }
    {
        let room = mem::replace(&mut self.layout, Layout::plain(0));
        let laid = room.relaid(alloc, list.as_slice());
        self.list = Some(list);
        laid
    }

    /// Keeps a layout whose message was validated.
    pub fn keep(&mut self, layout: Layout) {
        self.layout = layout;
    }

    /// Takes room for so many pieces. `AllocError`: there was no memory for them.
    pub fn reserve(&mut self, alloc: Global, count: usize) -> Result<(), AllocError>
        requires { count ≤ MOST_PIECES }
    {
        let mut list = self.take_list(alloc);
        for _at in 0..count {
            list.push(Stretch { place: 0, size: 0 })?;
        }
        let layout = self.lay(alloc, list)?;
        self.keep(layout);
        Ok(())
    }
}
