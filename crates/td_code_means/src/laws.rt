//! Laws of the code of a module. They do nothing when they are called.

ghost use Rattle.td_code_means.specs.Laws.{CodeDoesAsMeant, ImageHasCode};

use td_image::laws::{one_spelling, tables_fit};

/// The code of a module does what the module means, from each of the code's entry points.
pub fn code_does_as_meant()
    ensures { CodeDoesAsMeant }
{}

/// Code that is read of the image of a module's text is the module's.
pub fn image_has_code()
    ensures { ImageHasCode }
{
    one_spelling();
    tables_fit();
}
