//! A list of loads that stands in proofs alone.

ghost use Rattle.std.specs.Prelude.{◌≡◌, [], ◌∷◌, ◌++◌};

use crate::load::Load;
use std::marker::Model;
use std::mem;
use std::snapshot::Snapshot;

/// Loads, the last one outermost. Those before it stand in a snapshot, so a trail takes no memory.
#[derive(Drop)]
pub enum Trail {
    Start,
    Then { before: Snapshot<Trail>, load: Load },
}

/// A list of loads that has no bytes. A contract sees the list, the oldest load first.
#[derive(Drop)]
pub struct Made {
    trail: Snapshot<Trail>,
}

impl Model for Made {
    ghost use Rattle.std.specs.Prelude.{List};
    ghost use Rattle.td_stream.specs.declared.load.Load.{Load};
    ghost use Rattle.td_stream.specs.Trails.{loads_in};

    ghost Value = { List Load };

    ghost view = { λ m. loads_in m.trail.value };
}

impl Made {
    /// No loads.
    pub fn new() -> Made
        ensures { result ≡ [] }
    {
        Made {
            trail: Snapshot::of(&Trail::Start),
        }
    }

    /// One more load at the end.
    pub fn push(&mut self, load: Load)
        ensures { self.new ≡ self.old ++ load ∷ [] }
    {
        let before = mem::replace(&mut self.trail, Snapshot::of(&Trail::Start));
        self.trail = Snapshot::of(&Trail::Then { before, load });
    }
}
