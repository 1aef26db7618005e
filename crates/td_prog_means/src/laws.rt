//! Laws of the program of a module's code, and of an image's. They do nothing when they are called.

ghost use Rattle.td_prog_means.specs.Laws.{DoesInC, DoesInParts, ImagesDoInC, ImagesDoInParts, ImagesRunInC};

use td_code_means::laws::{code_does_as_meant, image_has_code};
use td_image::laws::{tables_fit, what_is_read_can_be_written};
use td_prog_runs::laws::{program_runs, program_runs_in_parts};

/// The program of a module's code tells what the module means, whatever memory gives to its loads.
pub fn does_in_c()
    ensures { DoesInC }
{
    program_runs();
    code_does_as_meant();
}

/// The program of code that is read of the image of a text tells what the text's module means.
pub fn images_do_in_c()
    ensures { ImagesDoInC }
{
    does_in_c();
    image_has_code();
    what_is_read_can_be_written();
}

/// The program that is written for messages in pieces, of a module's code, tells what the module means, however the message
/// lies and whatever memory gives to its loads.
pub fn does_in_parts()
    ensures { DoesInParts }
{
    program_runs_in_parts();
    code_does_as_meant();
}

/// The same of code that is read of the image of a text.
pub fn images_do_in_parts()
    ensures { ImagesDoInParts }
{
    does_in_parts();
    image_has_code();
    what_is_read_can_be_written();
}

/// The program of code that is read of any image, and that the verifier accepts, does what the code does.
pub fn images_run_in_c()
    ensures { ImagesRunInC }
{
    program_runs();
    tables_fit();
    what_is_read_can_be_written();
}
