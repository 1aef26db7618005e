//! Laws of kinds and of the safety rule. They do nothing when they are called.

ghost use Rattle.td_arith.specs.Laws.{EvaluatedIsSound};
ghost use Rattle.td_arith.specs.Sizes.{ElementsMoveOn, SizesHold};

/// In an admitted module every expression that the meaning evaluates lies in its type's range, and so does each part of
/// it that is evaluated.
pub fn evaluated_is_sound()
    ensures { EvaluatedIsSound }
{}

/// Where a type accepts, it takes as many bytes as its kind says.
pub fn sizes_hold()
    ensures { SizesHold }
{}

/// An element that K1 admits in a byte-sized array takes at least a byte wherever it accepts, and ends within its end.
pub fn elements_move_on()
    ensures { ElementsMoveOn }
{}
