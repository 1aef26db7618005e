//! The safety rule of a module.

ghost use Rattle.std.specs.Prelude.{◌≡◌, ◌≢◌, ◌<◌, None, length, IfOk, IfErr, Err};
ghost use Rattle.td_arith.specs.SafeModule.{definitions_unsafe, module_unsafe, IsCause};

use crate::casetypes::definition_unsafe;
use crate::error::ArithError;
use crate::expressions::first_of;
use std::alloc::{AllocError, Global};
use td_core::module::{Module, TypeDef};
use td_expr::safety::Unsafe;

/// Whether each operator of a module is safe under the facts at its place, and each copy has room. Else the error names
/// the first in the order of the text that isn't, or has none. `NoMemory`: there is a definition, and there was no memory
/// to look at it.
pub fn arith(alloc: Global, m: &Module) -> Result<(), ArithError>
    ensures admitted { IfOk result (λ _. module_unsafe m.now ≡ None) }
    ensures cause { IfErr result (λ e. IsCause (module_unsafe m.now) e) }
    ensures memory { result ≡ Err ArithError.NoMemory → 0 < length m.now.definitions }
{
    answer(definitions_unsafe(alloc, m.definitions.as_slice())?)
}

/// The error that names an operator, where one was found. Takes no memory.
fn answer(found: Option<Unsafe>) -> Result<(), ArithError>
    ensures admitted { IfOk result (λ _. found ≡ None) }
    ensures cause { IfErr result (λ e. IsCause found e) }
    ensures named { result ≢ Err ArithError.NoMemory }
{
    match found {
        Some(Unsafe::Operator { span, op }) => Err(ArithError::Unsafe { span, op }),
        Some(Unsafe::Room { span }) => Err(ArithError::Room { span }),
        Some(Unsafe::Value { span }) => Err(ArithError::Value { span }),
        None => Ok(()),
    }
}

/// The first operator of definitions that isn't safe.
fn definitions_unsafe(alloc: Global, definitions: &[TypeDef]) -> Result<Option<Unsafe>, AllocError>
    ensures first { IfOk result (λ u. u ≡ definitions_unsafe definitions.now) }
    ensures memory { IfErr result (λ _. 0 < length definitions.now) }
{
    let mut found = None;
    for definition in definitions {
        let own = definition_unsafe(alloc, definition)?;
        found = first_of(found, own);
    }
    Ok(found)
}
