//! Laws of writing. They do nothing when they are called.

ghost use Rattle.td_write_spells.specs.Laws.{KindsAreAdmitted, SpelledAreBytes, WritingIsExact};
ghost use Rattle.td_write_spells.specs.Rows.{RowsHold};

/// What is written spells the value, and the meaning accepts it to its end; a value that is spelled so, within the limit,
/// is written; and each refusal says what is wrong.
pub fn writing_is_exact()
    ensures { WritingIsExact }
{}

/// The worked rows.
pub fn rows_hold()
    ensures { RowsHold }
{}

/// In a formed module none of whose kinds is refused no field that takes the rest stands before another.
pub fn kinds_are_admitted()
    ensures { KindsAreAdmitted }
{}

/// What spells a value are bytes, where those that stand in the value are.
pub fn spelled_are_bytes()
    ensures { SpelledAreBytes }
{}
