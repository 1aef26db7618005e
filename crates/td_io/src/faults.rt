//! Counts of faults.

ghost use Rattle.std.specs.Prelude.{◌≡◌};
ghost use Rattle.td_io.specs.Faults.{after_fault, after_work, none_yet};

/// How many calls of a source or of a sink failed so far, and whether the latest call did.
#[derive(Clone, Copy, PartialEq, Eq)]
pub struct Faults {
    /// The number of calls that failed, modulo 2^64.
    pub count: u64,
    /// Whether the latest call failed.
    pub latest: bool,
}

impl Faults {
    /// No call was made yet.
    pub fn none_yet() -> Faults
        ensures { result ≡ none_yet }
    {
        Faults {
            count: 0,
            latest: false,
        }
    }

    /// Notes a call that worked.
    pub fn note_work(&mut self)
        ensures { self.new ≡ after_work self.old.count }
    {
        self.latest = false;
    }

    /// Notes a call that failed.
    pub fn note_fault(&mut self)
        ensures { self.new ≡ after_fault self.old.count }
    {
        self.count = self.count.wrapping_add(1);
        self.latest = true;
    }
}
