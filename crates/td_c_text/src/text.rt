//! The files of C of a checked module.

ghost use Rattle.std.specs.Prelude.{ℕ, ◌<◌, ◌^◌, List, length, IfOk};
ghost use Rattle.td_front.specs.Checked.{IsChecked};
ghost use Rattle.td_front.specs.ModuleText.{IsModuleText};
ghost use Rattle.td_c_text.specs.Texts.{IsCHeader, IsCParts, IsCSource};

use crate::head::{head, joined};
use crate::laws::{texts_tell_in_c, texts_tell_in_parts};
use std::alloc::{AllocError, Global};
use td_code::code_of;
use td_core::module::Module;
use td_num::text::Text;
use td_prog_emit as emit;
use td_prog_stack::depth::{functions_deep, variables_deep};

/// The file of the functions of a module's C, whose names begin with a prefix, which includes `PREFIX.h`. It is C where the
/// prefix is a letter, then letters, digits and `_`. `AllocError`: there was no memory for it.
pub fn c_source(alloc: Global, m: &Module, prefix: &[u8]) -> Result<Text, AllocError>
    requires { IsChecked m.now }
    ensures { (text : List ℕ) → length text < 2 ^ 32 → IsModuleText text m.now → IfOk result (λ file. IsCSource prefix.now m.now file) }
{
    texts_tell_in_c();
    let verified = code_of(alloc, m)?;
    let _code = verified.code();
    let functions = functions_deep(alloc, &verified)?;
    let variables = variables_deep(alloc, &verified)?;
    let lines = head(alloc, functions, variables)?;
    let file = emit::c_source(alloc, &verified, prefix)?;
    let whole = joined(lines, &file)?;
    Ok(Text::of(whole))
}

/// The file of the declarations of those functions. `AllocError`: there was no memory for it.
pub fn c_header(alloc: Global, m: &Module, prefix: &[u8]) -> Result<Text, AllocError>
    requires { IsChecked m.now }
    ensures { (text : List ℕ) → length text < 2 ^ 32 → IsModuleText text m.now → IfOk result (λ file. IsCHeader prefix.now m.now file) }
{
    texts_tell_in_c();
    let verified = code_of(alloc, m)?;
    let _code = verified.code();
    let file = emit::c_header(alloc, &verified, prefix)?;
    Ok(Text::of(file))
}

/// The file of the functions for messages in pieces. `AllocError`: there was no memory for it.
pub fn c_parts(alloc: Global, m: &Module, prefix: &[u8]) -> Result<Text, AllocError>
    requires { IsChecked m.now }
    ensures { (text : List ℕ) → length text < 2 ^ 32 → IsModuleText text m.now → IfOk result (λ file. IsCParts prefix.now m.now file) }
{
    texts_tell_in_parts();
    let verified = code_of(alloc, m)?;
    let _code = verified.code();
    let file = emit::parts_source(alloc, &verified, prefix)?;
    Ok(Text::of(file))
}
