//! The words of a message in a buffer that threads share.

ghost use Rattle.std.specs.Prelude.{◌≡◌, []};
ghost use Rattle.td_stream.specs.Layouts.{AreWithin};
ghost use Rattle.td_live.specs.Live.{HasLoaded};

use crate::gate::{Gate, PostName};
use std::snapshot::Snapshot;
use td_stream::layout::Layout;
use td_stream::load::Load;
use td_stream::made::Made;
use td_stream::words::Words;
use td_words::seats::ReadSeat;
use td_words::shared::Shared;

/// The words of a message that lies in a shared buffer. Each is loaded by a reader's seat, and the gate
/// is called before each load. Loads take no memory.
#[derive(Drop)]
pub struct LiveWords<'a, G: Gate> {
    shared: &'a Shared,
    seat: &'a mut ReadSeat,
    // The seat when this was made.
    start: Snapshot<ReadSeat>,
    layout: &'a Layout,
    // The stretch of the word that was loaded last, from which the next one's is looked for.
    near: u32,
    name: PostName,
    // The loads made so far, and how many; their list has no bytes.
    made: Made,
    number: u32,
    gate: &'a mut G,
    pub ghost table: { seat.now.table ≡ shared.now.table },
    pub ghost inside: { AreWithin shared.now.count layout.now },
    pub ghost loaded: { HasLoaded layout.now start.value seat.now made },
}

impl<'a, G: Gate> LiveWords<'a, G> {
    /// The words of a message of this name, whose stretches are in the buffer. None was loaded yet.
    pub fn over(
        shared: &'a Shared,
        seat: &'a mut ReadSeat,
        layout: &'a Layout,
        name: PostName,
        gate: &'a mut G,
    ) -> LiveWords<'a, G>
        requires own { seat.old.table ≡ shared.now.table }
        requires inside { AreWithin shared.now.count layout.now }
        ensures same_seat { result.seat.ghost_name ≡ seat.entry.ghost_name }
        ensures same_gate { result.gate.ghost_name ≡ gate.entry.ghost_name }
        ensures now { result.seat.now ≡ seat.old }
        ensures start { result.start.value ≡ seat.old }
        ensures layout { result.layout.now ≡ layout.now }
        ensures fresh { result.made ≡ [] }
    {
        let start = Snapshot::of(&*seat);
        LiveWords {
            shared,
            seat,
            start,
            layout,
            near: 0,
            name,
            made: Made::new(),
            number: 0,
            gate,
        }
    }

    /// Gives the seat and the gate back, as they are now.
    pub fn end(self)
        ensures { self.exit.1.0.now ≡ self.entry.seat.now }
    {
        let LiveWords {
            shared: _,
            seat: _,
            start: _,
            layout: _,
            near: _,
            name: _,
            made: _,
            number: _,
            gate: _,
        } = self;
    }
}

impl<'a, G: Gate> Words for LiveWords<'a, G> {
    ghost use Rattle.std.proofs.Common.{ap};
    ghost use Rattle.td_stream.specs.Layouts.{count_in};
    ghost use Rattle.td_live.specs.Live.{SameLoan, same_itself, same_on};

    ghost loads = { λ w. w.made };

    ghost size = { λ w. count_in w.layout.now };

    ghost reaches = { λ v w. SameLoan (v.seat.ghost_name, v.start.value, v.layout.now)
        (w.seat.ghost_name, w.start.value, w.layout.now) };

    ghost reaches_itself = { λ w. same_itself (w.seat.ghost_name, w.start.value, w.layout.now) };

    ghost reaches_on = { λ u v w. same_on (u.seat.ghost_name, u.start.value, u.layout.now)
        (v.seat.ghost_name, v.start.value, v.layout.now)
        (w.seat.ghost_name, w.start.value, w.layout.now) };

    ghost same_size = { λ v w p. ap count_in p.2 };

    fn count(&self) -> u32 {
        self.layout.count()
    }

    fn load(&mut self, i: u32) -> u64 {
        self.gate.before_load(self.name, self.number);
        self.number = self.number.saturating_add(1);
        let (near, word) = self.layout.word_from(self.near, i);
        self.near = near;
        let value = self.shared.load(&mut *self.seat, word);
        self.made.push(Load { word: i, value });
        value
    }
}
