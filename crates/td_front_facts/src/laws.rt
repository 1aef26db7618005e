//! Laws of the modules that admitted trees stand for. They do nothing when they are called.

ghost use Rattle.td_front_facts.specs.Laws.{NamesAreWords, PlainNamesAreWords, TypesAreAlike, SpelledNamesAreApart, ModulesAreWithin, NodesAreWithin, DepthsAreWithin, WeightsAreWithin, StepsAreSizes};

use td_elab_rules::laws::{modules_are_named, names_are_apart, names_are_written};
use td_front_flat_facts::laws::{names_are_spelled, names_stay_words};
use td_grammar::laws::either_form;

/// In a module that the tree of a text stands for, each name as it is spelled is a letter or `_` and then letters, digits and
/// `_`, and no keyword; of a text with parts it may be two of these, joined by a dot.
pub fn names_are_words()
    ensures all { NamesAreWords }
    ensures plain { PlainNamesAreWords }
{
    names_are_written();
    either_form();
    names_stay_words();
    names_are_spelled();
}

/// In a module that the tree of a text stands for, the names of types as they are spelled are all words, or all two words
/// joined by a dot.
pub fn types_are_alike()
    ensures { TypesAreAlike }
{
    modules_are_named();
    either_form();
    names_are_spelled();
}

/// In a module that the tree of a text stands for, no two names are spelled with the same bytes, where no part has the name of
/// an earlier one.
pub fn spelled_names_are_apart()
    ensures { SpelledNamesAreApart }
{
    names_are_written();
    names_are_apart();
    either_form();
    names_stay_words();
    names_are_spelled();
}

/// In a module that an admitted tree stands for, definitions, parameters, cells, fields and cases are no more than a text
/// may have.
pub fn modules_are_within()
    ensures { ModulesAreWithin }
{}

/// A module that an admitted tree stands for has no more nodes than a text may have.
pub fn nodes_are_within()
    ensures { NodesAreWithin }
{}

/// No definition of a module that an admitted tree stands for is deeper than a text's may be.
pub fn depths_are_within()
    ensures { DepthsAreWithin }
{}

/// No definition of a module that an admitted tree stands for is heavier than a text's may be.
pub fn weights_are_within()
    ensures { WeightsAreWithin }
{}

/// In a module that a tree stands for, the step of each array is the size of its elements, where these alone tell it.
pub fn steps_are_sizes()
    ensures { StepsAreSizes }
{}
