//! What C is told of bytes of which no C is written.

ghost use Rattle.std.specs.Prelude.{◌≡◌, ◌≢◌, ◌⊎◌, pos};
ghost use Rattle.td_image.specs.Answer.{RanOut};
ghost use Rattle.td_c_pack.specs.Faults.{IsFaultTold, rule_number};

use crate::refusal::{NO_MEMORY, REFUSED};
use td_image::ImageError;
use td_verify::rule::Rule;

/// What C is told of an image: the size of its text, or why it has none.
#[repr(C)]
pub struct TdWritten {
    /// How many bytes the text has.
    pub size: u64,
    /// By fault 3 to 5 the byte at which the image is refused, from 0; by 6 the instruction; else 0.
    pub place: u64,
    /// Why: 1 to 6, for I1 to I6.
    pub fault: u32,
    /// The rule that the instruction breaks: 1 to 7, for V1 to V7; else 0.
    pub rule: u32,
}

/// Why no C is written of bytes.
#[derive(Drop)]
pub enum TextError {
    /// They are no image of code that the verifier accepts, or there was no memory.
    Image(ImageError),
    /// The code has no entry point, so its C would have no function to call.
    NoEntry,
}

fn number_of(rule: Rule) -> u32
    ensures { result ≡ rule_number rule }
{
    match rule {
        Rule::Target => 1,
        Rule::Register => 2,
        Rule::Depth => 3,
        Rule::Loop => 4,
        Rule::Table => 5,
        Rule::Weight => 6,
        Rule::Operand => 7,
    }
}

// Tells a fault at a place.
fn tell(fault: u32, place: usize, rule: u32, told: &mut TdWritten) -> i32
    ensures number { result ≡ pos 22 }
    ensures told { told.new ≡ record told.old { place = place; fault = fault; rule = rule } }
{
    told.place = place as u64;
    told.fault = fault;
    told.rule = rule;
    REFUSED
}

/// Tells why bytes are no image of code that the verifier accepts: 22, or 4 exactly where there was no memory.
pub(crate) fn tell_fault(error: ImageError, told: &mut TdWritten) -> i32
    ensures which { (result ≡ pos 4) ⊎ (result ≡ pos 22) }
    ensures told { result ≡ pos 22 → (error ≢ ImageError.NoMemory) × IsFaultTold error told.old told.new }
    ensures untold { result ≡ pos 4 → told.new ≡ told.old }
    ensures memory { result ≡ pos 4 → RanOut error }
{
    match error {
        ImageError::Magic => tell(1, 0, 0, told),
        ImageError::Version => tell(2, 0, 0, told),
        ImageError::Short { at } => tell(3, at, 0, told),
        ImageError::Field { at } => tell(4, at, 0, told),
        ImageError::Rest { at } => tell(5, at, 0, told),
        ImageError::Refused(breach) => tell(6, breach.at, number_of(breach.rule), told),
        ImageError::NoMemory => NO_MEMORY,
    }
}
