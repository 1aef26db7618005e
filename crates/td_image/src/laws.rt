//! Laws of images. They do nothing when they are called.

ghost use Rattle.td_image.specs.Laws.{OfOneCode, OneSpelling, OneFault, NoFault, NoLonger, CutIsShort, TablesFit, WithinHasImage, ReadIsWritten, NoneForCounts};

/// Bytes are the image of one code at most, and a code has one image at most in the version in which it is
/// written.
pub fn one_spelling()
    ensures of_one_code { OfOneCode }
    ensures one { OneSpelling }
{}

/// One field at most is the first that is wrong, and none of an image; nor do bytes follow what is an image itself.
pub fn one_fault()
    ensures one { OneFault }
    ensures none { NoFault }
    ensures no_longer { NoLonger }
{}

/// The first bytes of an image, fewer than all, are no image, and end within a field.
pub fn cut_is_short()
    ensures { CutIsShort }
{}

/// Parts that have an image fit together.
pub fn tables_fit()
    ensures { TablesFit }
{}

/// Parts that fit together and are within the limits have an image.
pub fn code_within_the_limits_has_an_image()
    ensures { WithinHasImage }
{}

/// Memory may run out only where no field of the header is wrong and, if there are names, the first one was read: none is
/// taken for counts alone.
pub fn memory_is_for_rows()
    ensures { NoneForCounts }
{}

/// Code that is spelled in any version has an image in the version in which it is written.
pub fn what_is_read_can_be_written()
    ensures { ReadIsWritten }
{}
