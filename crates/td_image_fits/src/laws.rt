//! Laws of how large the code of a module text is. They do nothing when they are called.

ghost use Rattle.td_image_fits.specs.Laws.{ModulesAreSmall, CodeIsWithin};

use td_elab_rules::laws::names_are_written;
use td_grammar::laws::either_form;

/// The module of a text whose length is a number of 32 bits has no more names, enums and entry points than a text may have,
/// and its numbers are numbers of 64 bits.
pub fn modules_are_small()
    ensures { ModulesAreSmall }
{
    names_are_written();
    either_form();
}

/// The code of such a module is within the format of images: its tables are no longer than an image's, it has no more
/// instructions, and its numbers have room in their fields.
pub fn code_is_within()
    ensures { CodeIsWithin }
{}
