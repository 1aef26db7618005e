//! Laws of counts of faults. They do nothing when they are called.

ghost use Rattle.td_io.specs.Laws.{FaultsShow};

/// A fault always shows in the count: the count after it differs from the one before it, as it wraps round.
pub fn faults_show()
    ensures { FaultsShow }
{}
