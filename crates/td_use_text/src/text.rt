//! From a text to code.

ghost use Rattle.std.specs.Prelude.{◌≡◌, ◌<◌, ◌-◌, ◌^◌, ◌⊎◌, length, IfOk, IfErr, MatchOption};
ghost use Rattle.td_front.specs.Checked.{IsChecked};
ghost use Rattle.td_front.specs.ModuleText.{IsModuleText, RefusedBy};
ghost use Rattle.td_lower_means.specs.CodeRun.{IsCodeOf};
ghost use Rattle.td_code.specs.Compile.{DoesWhatItMeans};
ghost use Rattle.td_use_text.specs.Reports.{BeginsAtZeros, TakesArguments};

use std::alloc::{AllocError, Global};
use td_code::code_of;
use td_core::entries::entry_definition;
use td_core::module::{Entry, Module};
use td_front::{FrontError, check_module};
use td_verify::verify::Verified;

/// A module and its code.
#[derive(Drop)]
pub struct Compiled {
    pub module: Module,
    pub code: Verified,
}

/// The module for which a text stands, and its code. An error is the refusal of the text, or that there was no memory.
pub fn compile(alloc: Global, text: &[u8]) -> Result<Compiled, FrontError>
    requires { length text.now < 2 ^ 32 - 1 }
    ensures module { IfOk result (λ made. IsModuleText text.now made.module) }
    ensures code { IfOk result (λ made. IsCodeOf made.code made.module) }
    ensures means { IfOk result (λ made. DoesWhatItMeans made.code made.module) }
    ensures refused { IfErr result (λ e. (e ≡ FrontError.NoMemory) ⊎ RefusedBy text.now e) }
{
    let module = check_module(alloc, text)?;
    match code_of(alloc, &module) {
        Ok(code) => Ok(Compiled { module, code }),
        Err(_) => Err(FrontError::NoMemory),
    }
}

/// The cells with which a validation begins: a zero for each that the entry point has. None: it has no definition, or takes
/// arguments. `AllocError`: there was no memory for them.
pub fn zeros(alloc: Global, m: &Module, entry: Entry) -> Result<Option<Vec<u64>>, AllocError>
    ensures { IfOk result (λ found. MatchOption found (TakesArguments m.now entry) (λ cells. BeginsAtZeros m.now entry cells.items)) }
{
    let Some(definition) = entry_definition(m, entry) else {
        return Ok(None);
    };
    if definition.params.len() > 0 {
        return Ok(None);
    }
    Ok(Some(vec![in alloc; 0; definition.cells.len()]?))
}
