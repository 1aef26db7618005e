//! A law of the C of a module text. It does nothing when it is called.

ghost use Rattle.td_c_text.specs.Laws.{TextsTellInC, TextsTellInParts};

use td_front::laws::{modules_are_checked, one_answer_each};
use td_image::laws::code_within_the_limits_has_an_image;
use td_image_fits::laws::{code_is_within, modules_are_small};
use td_prog_means::laws::{images_do_in_c, images_do_in_parts};

/// The program of the code of a module for which a text stands tells what the module means. So no number of that code is
/// looked at for it.
pub fn texts_tell_in_c()
    ensures { TextsTellInC }
{
    modules_are_checked();
    one_answer_each();
    modules_are_small();
    code_is_within();
    code_within_the_limits_has_an_image();
    images_do_in_c();
}

/// The same of the program for messages in pieces.
pub fn texts_tell_in_parts()
    ensures { TextsTellInParts }
{
    modules_are_checked();
    one_answer_each();
    modules_are_small();
    code_is_within();
    code_within_the_limits_has_an_image();
    images_do_in_parts();
}
