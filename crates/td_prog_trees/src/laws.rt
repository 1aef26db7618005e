//! Laws of trees and of helpers. They do nothing when they are called.

ghost use Rattle.td_prog.specs.Tree.{PlaysAreCarried};
ghost use Rattle.td_prog_trees.specs.Laws.{PlaysRise, GuardIsNeverMet, NumbersAreTaken};

/// A play of a tree is what the tree comes to on each memory that stays and holds what was loaded.
pub fn plays_are_carried()
    ensures { PlaysAreCarried }
{}

/// Where the loaded words rise on each memory that stays, they rise in each play.
pub fn plays_rise()
    ensures { PlaysRise }
{}

/// Where each play loads words below a number, a guard at that number changes no play.
pub fn guard_is_never_met()
    ensures { GuardIsNeverMet }
{}

/// The helper of a byte order and a width gives the number at the position, and loads just the words of its bytes that weren't loaded before.
pub fn numbers_are_taken()
    ensures { NumbersAreTaken }
{}
