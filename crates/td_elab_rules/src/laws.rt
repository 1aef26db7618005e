//! Laws of the modules that trees stand for. They do nothing when they are called.

ghost use Rattle.td_elab_rules.specs.Laws.{OneModule, ModulesAreFormed, ModulesAreCopying, ModulesAreSorted, ModulesAreWhole, FieldsAreWhole, ModulesAreNamed, NamesAreApart, NamesAreWritten};

/// A tree stands for at most one module.
pub fn one_module()
    ensures { OneModule }
{}

/// In a module that a tree stands for, levels are in scope, literals fit, types that are named stand earlier, with
/// arguments and cells that match, and what is assigned fits its cell. What a cell holds fits the field that it gives a value.
pub fn modules_are_formed()
    ensures { ModulesAreFormed }
{}

/// In a module that a tree stands for, copies are of byte-sized arrays of `UINT8`, and buffers are given on with their rooms.
pub fn modules_are_copying()
    ensures { ModulesAreCopying }
{}

/// In a module that a tree stands for, truth values stand where truth values must, and numbers where numbers must.
pub fn modules_are_sorted()
    ensures { ModulesAreSorted }
{}

/// In a module that a tree stands for, each field has a part, and each entry point a definition.
pub fn modules_are_whole()
    ensures { ModulesAreWhole }
{}

/// In a module that a tree stands for, bit fields lie in their numbers, refinements stand on numbers, arrays up to a zero
/// and fields without bytes have numbers, and enums have their values.
pub fn fields_are_whole()
    ensures { FieldsAreWhole }
{}

/// In a module that a tree stands for, each name is among the module's names.
pub fn modules_are_named()
    ensures { ModulesAreNamed }
{}

/// In a module that a tree stands for, no two names have the same bytes.
pub fn names_are_apart()
    ensures { NamesAreApart }
{}

/// In a module that a tree stands for, each name is written in the tree: it is that of a parameter, a field, a slot, a
/// struct or a casetype.
pub fn names_are_written()
    ensures { NamesAreWritten }
{}
