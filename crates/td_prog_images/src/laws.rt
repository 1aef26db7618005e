//! Laws. They do nothing when they are called.

ghost use Rattle.td_prog_images.specs.Laws.{ImagesAreText, ImagesRunInParts, TextsAreText};

use td_front::laws::modules_are_checked;
use td_image::laws::{
    code_within_the_limits_has_an_image, tables_fit, what_is_read_can_be_written,
};
use td_image_fits::laws::{code_is_within, modules_are_small};
use td_prog_laws::laws::{parts_program_is_text, program_is_text};
use td_prog_runs::laws::program_runs_in_parts;

/// A compiler of C accepts the programs of code that is read of any image, and that the verifier accepts.
pub fn images_are_text()
    ensures { ImagesAreText }
{
    program_is_text();
    parts_program_is_text();
    tables_fit();
    what_is_read_can_be_written();
}

/// A compiler of C accepts the programs of the code of a module for which a text stands.
pub fn texts_are_text()
    ensures { TextsAreText }
{
    modules_are_checked();
    modules_are_small();
    code_is_within();
    code_within_the_limits_has_an_image();
    images_are_text();
}

/// The program for messages in pieces, of code that is read of any image and that the verifier accepts, does what the code
/// does.
pub fn images_run_in_parts()
    ensures { ImagesRunInParts }
{
    program_runs_in_parts();
    tables_fit();
    what_is_read_can_be_written();
}
