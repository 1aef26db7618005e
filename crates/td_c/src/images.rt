//! Why bytes are no image, as numbers of C.

ghost use Rattle.std.specs.Prelude.{◌≡◌, ℕ, List, pos};
ghost use Rattle.td_image.specs.Answer.{IsRefused, MayRunOut, RanOut};
ghost use Rattle.td_c.specs.Images.{IsFault, rule_number};

use crate::answers::NO_MEMORY;
use td_image::ImageError;
use td_verify::rule::Rule;

/// Where bytes are no image.
#[repr(C)]
pub struct TdFault {
    /// The byte that is wrong, for I3 to I5; the instruction that breaks a rule of the verifier, for I6.
    pub place: u64,
    /// The rule's number, for I6.
    pub rule: u32,
}

fn number_of(rule: Rule) -> u32
    ensures { result ≡ rule_number rule }
{
    match rule {
        Rule::Target => 1,
        Rule::Register => 2,
        Rule::Depth => 3,
        Rule::Loop => 4,
        Rule::Table => 5,
        Rule::Weight => 6,
        Rule::Operand => 7,
    }
}

/// 11 to 16 for I1 to I6.
pub(crate) fn code_of(error: ImageError, fault: &mut TdFault) -> i32
    ensures done { result ≡ pos 0 → ⊥ }
    ensures fault { (bytes : List ℕ) → IsRefused bytes error → (RanOut error → MayRunOut bytes) → IsFault result fault.old fault.new bytes }
    ensures memory { result ≡ pos 4 → RanOut error }
{
    match error {
        ImageError::Magic => 11,
        ImageError::Version => 12,
        ImageError::Short { at } => {
            fault.place = at as u64;
            13
        }
        ImageError::Field { at } => {
            fault.place = at as u64;
            14
        }
        ImageError::Rest { at } => {
            fault.place = at as u64;
            15
        }
        ImageError::Refused(breach) => {
            fault.place = breach.at as u64;
            fault.rule = number_of(breach.rule);
            16
        }
        ImageError::NoMemory => NO_MEMORY,
    }
}
