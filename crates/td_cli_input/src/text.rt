//! The module text of an input: the bytes before its marker.

ghost use Rattle.std.specs.Prelude.{◌≡◌, ◌<◌, ◌^◌, ◌-◌, ℕ, Err, length, MatchResult, IfOk, IfErr, IsErr, IsErrOf};
ghost use Rattle.td_cli_input.specs.Imports.{Module};
ghost use Rattle.td_front.specs.Checked.{IsChecked};
ghost use Rattle.td_front.specs.ModuleText.{IsModuleText};
ghost use Rattle.td_cli_input.specs.declared.refusal.Refusal.{Refusal};
ghost use Rattle.td_cli_input.specs.Causes.{HasCause, HasTextToken};
ghost use Rattle.td_cli_input.specs.Inputs.{RefusesText};
ghost use Rattle.td_cli_input.specs.Marker.{IsMarker, IsFirstMarker, module_part};

use crate::refusal::{InputError, Refusal, of_module};
use crate::split::{find_marker, module_part};
use std::alloc::Global;
use td_core::module::Module;
use td_front::check_module;

/// Where the marker of an input stands, and the module of the text before it.
#[derive(Drop)]
pub(crate) struct ModulePart {
    pub(crate) place: usize,
    pub(crate) module: Module,
}

/// Parses an input up to its job: a module text, and the first line that is exactly `%%`.
///
/// `Refused`: there is no such line, or the text is no module; the first of these. `NoMemory`: there was no memory for a token
/// before that line. The line is looked for without any, so where it is missing that is told in any case.
pub(crate) fn parse_module(alloc: Global, input: &[u8]) -> Result<ModulePart, InputError>
    requires { length input.now < 2 ^ 32 - 1 }
    ensures marker { IfOk result (λ part. IsFirstMarker input.now part.place) }
    ensures stands { IfOk result (λ part. IsModuleText (module_part input.now part.place) part.module) }
    ensures checked { IfOk result (λ part. IsChecked part.module) }
    ensures cause { IfErr result (HasCause (RefusesText input.now)) }
    ensures complete { (n : ℕ) (m : Module) → IsFirstMarker input.now n → IsModuleText (module_part input.now n) m →
        MatchResult result (λ part. part.module ≡ m) (λ e. e ≡ InputError.NoMemory) }
    ensures refused { (refusal : Refusal) → RefusesText input.now refusal → IsErr result }
    ensures no_job { ((n : ℕ) → IsMarker input.now n → ⊥) → IsErrOf result (InputError.Refused Refusal.NoJob) }
    ensures memory { result ≡ Err InputError.NoMemory → HasTextToken input.now }
{
    let Some(place) = find_marker(input) else {
        return Err(InputError::Refused(Refusal::NoJob));
    };
    match check_module(alloc, module_part(input, place)) {
        Ok(module) => Ok(ModulePart { place, module }),
        Err(error) => Err(of_module(error)),
    }
}
