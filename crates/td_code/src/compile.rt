//! The code of a checked module, its listing and its image.

ghost use Rattle.std.specs.Prelude.{◌≡◌, ℕ, ◌<◌, ◌^◌, List, length, IfOk};
ghost use Rattle.td_front.specs.Checked.{IsChecked};
ghost use Rattle.td_front.specs.ModuleText.{IsModuleText};
ghost use Rattle.td_lower.specs.Code.{IsWritten};
ghost use Rattle.td_lower_means.specs.CodeRun.{IsCodeOf};
ghost use Rattle.td_code.specs.Compile.{DoesWhatItMeans, IsListing, IsPacked, IsSpelled};

use std::alloc::{AllocError, Global};
use td_arith::laws::evaluated_is_sound;
use td_core::module::Module;
use td_image::laws::code_within_the_limits_has_an_image;
use td_image::write_image;
use td_image_fits::laws::{code_is_within, modules_are_small};
use td_ir::listing::listing;
use td_lower::lower::lower;
use td_lower_means::laws::arguments_fit;
use td_num::items::Items;
use td_num::text::Text;
use td_verify::verify::Verified;

/// The code of a module. `AllocError`: there was no memory for it.
///
/// A text's code, ready for `Frame::arm`:
///
/// ```
/// use std::alloc::Global;
/// use td_code::code_of;
/// use td_front::{FrontError, check_module};
/// use td_verify::Verified;
///
/// fn pair(alloc: Global) -> Result<Verified, FrontError> {
///     let module = check_module(alloc, b"entrypoint typedef struct _P { UINT8 a; UINT8 b; } P;")?;
///     code_of(alloc, &module).map_err(|_| FrontError::NoMemory)
/// }
/// ```
pub fn code_of(alloc: Global, m: &Module) -> Result<Verified, AllocError>
    requires { IsChecked m.now }
    ensures written { IfOk result (λ code. IsWritten code m.now) }
    ensures code { IfOk result (λ code. IsCodeOf code m.now) }
    ensures means { IfOk result (λ code. DoesWhatItMeans code m.now) }
{
    evaluated_is_sound();
    arguments_fit();
    lower(alloc, m)
}

/// The listing of a module's code. `AllocError`: there was no memory for it.
pub fn code_listing(alloc: Global, m: &Module) -> Result<Text, AllocError>
    requires { IsChecked m.now }
    ensures { IfOk result (λ text. IsListing m.now text) }
{
    let verified = code_of(alloc, m)?;
    let text = listing(alloc, verified.code())?;
    Ok(Text::of(text.into_bytes()))
}

/// The image of a module's code. `AllocError`: there was no memory for it.
pub fn packed_image(alloc: Global, m: &Module) -> Result<Items<u8>, AllocError>
    requires { IsChecked m.now }
    // Of any checked module, the bytes that the format gives its code.
    ensures spelled { IfOk result (λ bytes. IsSpelled m.now bytes) }
    // Of one for which a text stands, its code's image.
    ensures packed { (text : List ℕ) → length text < 2 ^ 32 → IsModuleText text m.now → IfOk result (λ bytes. IsPacked m.now bytes) }
{
    code_within_the_limits_has_an_image();
    modules_are_small();
    code_is_within();
    let verified = code_of(alloc, m)?;
    let _code = verified.code();
    let image = write_image(alloc, &verified)?;
    Ok(Items::of(image))
}
