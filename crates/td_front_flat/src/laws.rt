//! Laws of flat inputs. They do nothing when they are called.

ghost use Rattle.td_front_flat.specs.Laws.{OneModule, OnePart, EachAnswered};
ghost use Rattle.td_front_flat.specs.Rows.{FlatRow, SpelledRow, CycleRow};

/// The worked rows.
pub fn rows()
    ensures flat { FlatRow }
    ensures spelled { SpelledRow }
    ensures cycle { CycleRow }
{}

/// A module is its own tree, and of one part without uses there is that part.
pub fn one_of_each()
    ensures one_module { OneModule }
    ensures one_part { OnePart }
{}

/// An input is linked, or a part has the name of an earlier one, or parts use each other in a cycle.
pub fn each_answered()
    ensures { EachAnswered }
{}
