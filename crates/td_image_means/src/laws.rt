//! Laws. They do nothing when they are called.

ghost use Rattle.td_image_means.specs.Laws.{ValidationsMean, ImagesMean};

use td_code_means::laws::{code_does_as_meant, image_has_code};

/// A validation by code that does what a module means is the meaning's, on every list of bytes that carries its loads.
pub fn validations_mean()
    ensures { ValidationsMean }
{}

/// Whoever reads the image of a text has code whose validations are the meaning of the text's module.
pub fn images_mean()
    ensures { ImagesMean }
{
    validations_mean();
    code_does_as_meant();
    image_has_code();
}
