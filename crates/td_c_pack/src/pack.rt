//! What C calls to make an image of a module text.

ghost use Rattle.std.specs.Prelude.{◌≡◌, ◌≤◌, ◌<◌, ◌-◌, ◌^◌, ◌⊎◌, ◌↔◌, length, take, drop, pos, IfOk, IfErr};
ghost use Rattle.td_front.specs.declared.error.FrontError.{FrontError};
ghost use Rattle.td_front.specs.ModuleText.{RefusedBy};
ghost use Rattle.td_code.specs.Compile.{IsImageOf};
ghost use Rattle.td_c_pack.specs.Packed.{IsPacking, MayRunOut, TellsSize};

use crate::refusal::{TdPacked, tell_refusal};
use crate::room::put;
use std::alloc::Global;
use td_code::packed_image;
use td_front::{FrontError, check_module};
use td_num::items::Items;

/// The most bytes that a text has.
pub const MOST_TEXT: usize = td_core::limits::MOST_INPUT;

const TOO_LONG: i32 = 21;

// The image of the code of the module for which a text stands.
fn image_of(alloc: Global, text: &[u8]) -> Result<Items<u8>, FrontError>
    requires { length text.now < 2 ^ 32 - 1 }
    ensures image { IfOk result (IsImageOf text.now) }
    ensures refused { IfErr result (λ e. (e ≡ FrontError.NoMemory) ⊎ RefusedBy text.now e) }
    ensures memory { IfErr result (λ e. e ≡ FrontError.NoMemory → MayRunOut text.now) }
{
    match check_module(alloc, text) {
        Err(error) => Err(error),
        Ok(module) => match packed_image(alloc, &module) {
            Ok(image) => Ok(image),
            Err(_) => Err(FrontError::NoMemory),
        },
    }
}

// Puts an image where there is room for it.
fn put_image(found: &[u8], image: &mut [u8], told: &mut TdPacked) -> i32
    ensures which { (result ≡ pos 0) ⊎ (result ≡ pos 23) }
    ensures size { told.new.size ≡ length found.now }
    ensures told { TellsSize told.old told.new }
    ensures done { result ≡ pos 0 → (take (length found.now) image.new ≡ found.now) × (length found.now ≤ length image.new) }
    ensures behind { result ≡ pos 0 → drop (length found.now) image.new ≡ drop (length found.now) image.old }
    ensures room { result ≡ pos 23 → length image.new < length found.now }
    ensures unwritten { result ≡ pos 23 → image.new ≡ image.old }
{
    told.size = found.len() as u64;
    put(found, image)
}

/// Checks a module text, and writes the image of its code where there is room, and no other byte. 0: it is written; 21: the text has more
/// bytes than texts have; 22: it is refused, and what was told says why; 23: the image has more bytes than there is room for, as was
/// told; 4: there was no memory, which comes of no text that is refused before its first token.
#[unsafe(no_mangle)]
pub extern "C" fn td_c_pack(
    alloc: Global,
    text: &[u8],
    image: &mut [u8],
    told: &mut TdPacked,
) -> i32
    ensures { IsPacking text.now image.old image.new told.old told.new result }
{
    if text.len() > MOST_TEXT {
        return TOO_LONG;
    }
    match image_of(alloc, text) {
        Ok(found) => put_image(found.as_slice(), image, told),
        Err(error) => tell_refusal(text, &error, told),
    }
}
