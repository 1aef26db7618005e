//! Memory of a guest, which it and others may keep changing.

ghost use Rattle.std.specs.Prelude.{◌≡◌, ℕ, ◌<◌, List, [], ◌∷◌, ◌++◌};
ghost use Rattle.td_stream.specs.declared.load.Load.{Load};
ghost use Rattle.td_chain.specs.Loaded.{IsFresh};

/// Words of 64 bits, counted from 0, that may be loaded in any order, each once. Others may store to them at any time: of the value that a
/// load gives nothing is known here.
pub trait Memory {
    /// The loads made so far, oldest first.
    ghost loads: { Self → List Load };

    /// How many words there are.
    ghost size: { Self → ℕ };

    /// The second state is one that the first may come to by loads.
    ghost reaches: { Self → Self → Type 0 };

    /// How many words there are; this never changes.
    fn count(&self) -> u32
        ensures { result ≡ size self.now };

    /// Loads word i, which wasn't loaded before.
    fn load(&mut self, i: u32) -> u64
        requires within { i < size self.old }
        requires fresh { IsFresh i (loads self.old) }
        ensures logged { loads self.new ≡ loads self.old ++ (record { word = i; value = result }) ∷ [] }
        ensures reaches { reaches self.old self.new };

    ghost reaches_itself: { (w : Self) → reaches w w };

    ghost reaches_on: { (u v w : Self) → reaches u v → reaches v w → reaches u w };

    ghost same_size: { (v w : Self) → reaches v w → size w ≡ size v };
}
