//! The kinds of a module.

ghost use Rattle.std.specs.Prelude.{◌≡◌, ◌<◌, [], length, IfOk, IfErr, OnErr, Ok, Err, MatchOption};
ghost use Rattle.td_kinds.specs.Kinds.{kind_at};
ghost use Rattle.td_kinds.specs.KindRules.{kind_list, kinds_to, kind_faults, definitions_faults, first_fault, error_of, IsCause};

use crate::casetypes::{body_fault, body_kind};
use crate::error::{KindError, KindFault};
use std::alloc::{AllocError, Global};
use td_core::kind::Kind;
use td_core::module::{Module, TypeDef};

/// The kinds of a module's definitions, in their order. Where a field's kind is refused, the error names the first in the
/// order of the text. `NoMemory`: there is a definition, and there was no memory for its kind. It is [`kind_table`], which
/// takes all the memory and refuses nothing, and then [`first_fault`], which takes none.
pub fn kinds(alloc: Global, m: &Module) -> Result<Vec<Kind>, KindError>
    ensures kinds { IfOk result (λ ks. ks.items ≡ kind_list m.now) }
    ensures admitted { IfOk result (λ _. kind_faults m.now ≡ []) }
    ensures cause { IfErr result (λ e. IsCause (kind_faults m.now) e) }
    ensures memory { result ≡ Err KindError.NoMemory → 0 < length m.now.definitions }
{
    let kinds = kind_table(alloc, m)?;
    let first = first_fault(&kinds, m);
    answer(kinds, first)
}

/// The kinds of a module's definitions, in their order, whether or not a field's kind is refused. `AllocError`: there is a
/// definition, and there was no memory for its kind.
pub fn kind_table(alloc: Global, m: &Module) -> Result<Vec<Kind>, AllocError>
    ensures kinds { IfOk result (λ ks. ks.items ≡ kind_list m.now) }
    ensures memory { OnErr result (0 < length m.now.definitions) }
{
    all_kinds(alloc, m.definitions.as_slice())
}

/// The first field of a module whose kind is refused, in the order of the text, by the kinds of the module's definitions.
/// Takes no memory.
pub fn first_fault(kinds: &[Kind], m: &Module) -> Option<KindFault>
    requires { kinds.now ≡ kind_list m.now }
    ensures { result ≡ first_fault (kind_faults m.now) }
{
    definitions_fault(kinds, m.definitions.as_slice())
}

/// The kinds, or the error that names the first refused field. Takes no memory.
fn answer(kinds: Vec<Kind>, first: Option<KindFault>) -> Result<Vec<Kind>, KindError>
    ensures { MatchOption first (result ≡ Ok kinds) (λ fault. result ≡ Err (error_of fault)) }
{
    match first {
        None => Ok(kinds),
        Some(fault) => Err(KindError::from(fault)),
    }
}

/// The kinds of definitions, each by those before it.
fn all_kinds(alloc: Global, definitions: &[TypeDef]) -> Result<Vec<Kind>, AllocError>
    ensures kinds { IfOk result (λ ks. ks.items ≡ kinds_to definitions.now (length definitions.now)) }
    ensures memory { OnErr result (0 < length definitions.now) }
{
    let mut kinds = Vec::new(alloc);
    for definition in definitions {
        let kind = body_kind(&kinds, &definition.body);
        kinds.push(kind)?;
    }
    Ok(kinds)
}

/// The first of what is refused of definitions, by all their kinds.
fn definitions_fault(kinds: &[Kind], definitions: &[TypeDef]) -> Option<KindFault>
    ensures { result ≡ first_fault (definitions_faults (kind_at kinds.now) definitions.now) }
{
    for definition in definitions {
        if let Some(fault) = body_fault(kinds, &definition.body) {
            return Some(fault);
        }
    }
    None
}
