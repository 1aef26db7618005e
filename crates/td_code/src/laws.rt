//! Laws of the code of a module. They do nothing when they are called.

ghost use Rattle.td_code.specs.Laws.{CodeIsOne, OneListing, OnePacked};

/// A module has one code at most, and so one listing and one image.
pub fn code_is_one()
    ensures one_code { CodeIsOne }
    ensures one_listing { OneListing }
    ensures one_packed { OnePacked }
{}
