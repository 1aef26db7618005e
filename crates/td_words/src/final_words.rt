//! The words of a buffer that was closed.

ghost use Rattle.std.specs.Prelude.{◌≡◌, ℕ, zero, suc, ◌+◌, ◌-◌, ◌<◌, List, ◌∷◌, length, drop, slice_index};
ghost use Rattle.std.specs.Slots.{slots_items, slots_len, IsFull};

use atomic_table::Closed;
use std::alloc::Global;
use std::marker::Model;

/// The words that a buffer ended with. A contract sees their list.
pub struct Final {
    closed: Closed<u8, Global>,
}

impl Model for Final {
    ghost use Rattle.std.specs.Prelude.{◌≡◌, ◌<◌, ℕ, List, length, drop, suc};
    ghost use Rattle.std.specs.Slots.{slots_items, slots_len, IsFull};

    ghost Value = { List ℕ };

    ghost view = { λ f. drop 1 (slots_items f.closed.words) };

    ghost invariant = { λ f. IsFull f.closed.words × (slots_len f.closed.slots ≡ 0) × (0 < slots_len f.closed.words) };
}

impl Final {
    // Those of a closed table, but for its word 0.
    pub(crate) fn new(closed: Closed<u8, Global>) -> Final
        requires { IsFull closed.words × (slots_len closed.slots ≡ 0) × (0 < slots_len closed.words) }
        ensures words { result ≡ drop 1 (slots_items closed.words) }
        ensures count { length result ≡ slots_len closed.words - 1 }
    {
        Final { closed }
    }

    /// Word i, counted from 0.
    pub fn word(&self, i: u32) -> u64
        requires { i < length self.now }
        ensures { result ≡ slice_index self.now i }
    {
        self.closed.word(i as usize + 1)
    }
}

impl Drop for Final {
    fn drop(self) {
        let Final { closed } = self;
        closed.free();
    }
}
