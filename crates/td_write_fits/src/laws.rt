//! Laws of writing in 64 bits. They do nothing when they are called.

ghost use Rattle.td_write_fits.specs.Laws.{WritingIsInRange};

/// In an admitted module arithmetic in 64 bits writes a value, and refuses one, as whole numbers do.
pub fn writing_is_in_range()
    ensures { WritingIsInRange }
{}
