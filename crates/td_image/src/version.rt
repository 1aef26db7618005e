//! Versions of the format of images.

ghost use Rattle.std.specs.Prelude.{◌≡◌};
ghost use Rattle.td_image.specs.Versions as versions;

use crate::limits::{
    FIRST_INSTRUCTIONS, FIRST_NUMBERS, FIRST_ROWS, FIRST_VERSION, LAST_KIND, MOST_INSTRUCTIONS,
    MOST_MAPPED, MOST_NUMBERS, MOST_ROWS, SECOND_KIND, SECOND_MAPPED, SECOND_VERSION, THIRD_KIND,
    THIRD_VERSION, VERSION,
};
use td_ir::fields::fields_of;
use td_ir::instructions::Instr;
use td_ir::tables::Parts;

/// A version of the format. All that distinguishes one from another is a function of it.
#[derive(Clone, Copy)]
pub enum ImageVersion {
    /// A site names no routine, and no name has a dot.
    First,
    /// A site names its routine, a name may be two, joined by a dot, and the limits are larger.
    Second,
    /// A routine may have copy buffers, and there is one more kind of instruction.
    Third,
    /// There is one more kind of instruction.
    Fourth,
}

/// What an image spells.
#[derive(Drop)]
pub struct Spelled {
    pub version: ImageVersion,
    pub parts: Parts,
}

/// The version of this number; the newest of a number that no version has.
pub(crate) fn version_of(number: u16) -> ImageVersion
    ensures { result ≡ versions.version_of number }
{
    if number == FIRST_VERSION {
        ImageVersion::First
    } else if number == SECOND_VERSION {
        ImageVersion::Second
    } else if number == THIRD_VERSION {
        ImageVersion::Third
    } else {
        ImageVersion::Fourth
    }
}

/// A version's number.
pub(crate) fn number_of(version: ImageVersion) -> u16
    ensures { result ≡ versions.number_of version }
{
    match version {
        ImageVersion::First => FIRST_VERSION,
        ImageVersion::Second => SECOND_VERSION,
        ImageVersion::Third => THIRD_VERSION,
        ImageVersion::Fourth => VERSION,
    }
}

fn is_newer(instruction: Instr) -> bool
    ensures { result ≡ versions.is_newer instruction }
{
    fields_of(instruction).number > THIRD_KIND
}

/// The version in which code of these instructions is written.
pub(crate) fn version_for(instructions: &[Instr]) -> ImageVersion
    ensures { result ≡ versions.version_for instructions.now }
{
    for instruction in instructions {
        if is_newer(*instruction) {
            return ImageVersion::Fourth;
        }
    }
    ImageVersion::Third
}

/// Rows at most of each table but that of instructions.
pub(crate) fn most_rows(version: ImageVersion) -> usize
    ensures { result ≡ versions.most_rows version }
{
    match version {
        ImageVersion::First => FIRST_ROWS,
        ImageVersion::Second => MOST_ROWS,
        ImageVersion::Third => MOST_ROWS,
        ImageVersion::Fourth => MOST_ROWS,
    }
}

/// Numbers at most in one set.
pub(crate) fn most_numbers(version: ImageVersion) -> usize
    ensures { result ≡ versions.most_numbers version }
{
    match version {
        ImageVersion::First => FIRST_NUMBERS,
        ImageVersion::Second => MOST_NUMBERS,
        ImageVersion::Third => MOST_NUMBERS,
        ImageVersion::Fourth => MOST_NUMBERS,
    }
}

/// Numbers at most in a cell map.
pub(crate) fn most_mapped(version: ImageVersion) -> usize
    ensures { result ≡ versions.most_mapped version }
{
    match version {
        ImageVersion::First => SECOND_MAPPED,
        ImageVersion::Second => SECOND_MAPPED,
        ImageVersion::Third => MOST_MAPPED,
        ImageVersion::Fourth => MOST_MAPPED,
    }
}

/// The greatest number of a kind of instruction.
pub(crate) fn last_kind(version: ImageVersion) -> u8
    ensures { result ≡ versions.last_kind version }
{
    match version {
        ImageVersion::First => SECOND_KIND,
        ImageVersion::Second => SECOND_KIND,
        ImageVersion::Third => THIRD_KIND,
        ImageVersion::Fourth => LAST_KIND,
    }
}

/// Whether a name may be two, joined by a dot.
pub(crate) fn has_dots(version: ImageVersion) -> bool
    ensures { result ≡ versions.has_dots version }
{
    match version {
        ImageVersion::First => false,
        ImageVersion::Second => true,
        ImageVersion::Third => true,
        ImageVersion::Fourth => true,
    }
}

/// Instructions at most.
pub(crate) fn most_instructions(version: ImageVersion) -> u32
    ensures { result ≡ versions.most_instructions version }
{
    match version {
        ImageVersion::First => FIRST_INSTRUCTIONS,
        ImageVersion::Second => MOST_INSTRUCTIONS,
        ImageVersion::Third => MOST_INSTRUCTIONS,
        ImageVersion::Fourth => MOST_INSTRUCTIONS,
    }
}
