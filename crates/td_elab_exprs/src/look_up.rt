//! What names stand for.

ghost use Rattle.std.specs.Prelude.{◌≡◌};
ghost use Rattle.td_elab_rules.specs.Known.{found_in, kind_at, signature_at, slots_at, is_literal_name};
ghost use Rattle.td_elab_rules.specs.Sorts.{size_found, size_named};
ghost use Rattle.td_elab_rules.specs.ExprRules.{is_nothing, is_type};

use td_ast::expressions::SizeofOperand;
use td_core::kind::Kind;
use td_elab_rules::known::{Found, Known, Meaning, Parameter, Scope, Slot};
use td_kinds::sizes::{constant_size, exactly};
use td_num::number::byte_count;

/// What a name stands for: the local of that name where there is one, else the definition, constant or member.
pub fn look_up(known: &Known, scope: &Scope, name: &[u8]) -> Found
    ensures { result ≡ found_in known.now scope.now name.now }
{
    match scope.locals.get(name) {
        Some(local) => Found::Local(*local),
        None => match known.globals.get(name) {
            Some(meaning) => Found::Global(*meaning),
            None => Found::Nothing,
        },
    }
}

/// The kind of the struct or casetype at a place of the module; past the last one no bytes.
fn kind_at(known: &Known, place: u32) -> Kind
    ensures { result ≡ kind_at known.now place }
{
    match known.kinds.as_slice().get(place as usize) {
        Some(kind) => *kind,
        None => exactly(0),
    }
}

/// The parameters of the struct or casetype at a place of the module; past the last one none.
pub fn signature_at<'a>(known: &'a Known, place: u32) -> &'a [Parameter]
    ensures { result.now ≡ signature_at known.now place }
{
    match known.signatures.as_slice().get(place as usize) {
        Some(parameters) => parameters.as_slice(),
        None => &[],
    }
}

/// The slots of the output record at a place among the records of the text; past the last one none.
pub fn slots_at<'a>(known: &'a Known, place: u32) -> &'a [Slot]
    ensures { result.now ≡ slots_at known.now place }
{
    match known.records.as_slice().get(place as usize) {
        Some(slots) => slots.as_slice(),
        None => &[],
    }
}

/// The size in bytes of the type that a name stands for, where it is a type of constant size.
pub fn size_found(known: &Known, found: Found) -> Option<u64>
    ensures { result ≡ size_found known.now found }
{
    match found {
        Found::Global(Meaning::Number(number)) => Some(u64::from(byte_count(number.width))),
        Found::Global(Meaning::Enum(base, _)) => Some(u64::from(byte_count(base.width))),
        Found::Global(Meaning::Type(place)) => constant_size(kind_at(known, place)),
        Found::Global(Meaning::Constant(_) | Meaning::Member(_) | Meaning::Record(_)) => None,
        Found::Nothing | Found::Local(_) => None,
    }
}

/// The size in bytes that `sizeof` gives, where there is one.
pub(crate) fn size_named(known: &Known, scope: &Scope, operand: &SizeofOperand) -> Option<u64>
    ensures { result ≡ size_named known.now scope.now operand.now }
{
    match operand {
        SizeofOperand::Number(number) => Some(u64::from(byte_count(number.width))),
        SizeofOperand::Name(name) => size_found(known, look_up(known, scope, name.as_slice())),
        SizeofOperand::This => scope.this,
    }
}

/// Whether there is nothing of that name.
pub fn is_nothing(found: Found) -> bool
    ensures { result ≡ is_nothing found }
{
    match found {
        Found::Nothing => true,
        Found::Local(_) | Found::Global(_) => false,
    }
}

/// Whether it is a type whose size may be asked for.
pub fn is_type(found: Found) -> bool
    ensures { result ≡ is_type found }
{
    match found {
        Found::Global(Meaning::Number(_) | Meaning::Enum(_, _) | Meaning::Type(_)) => true,
        Found::Global(Meaning::Constant(_) | Meaning::Member(_) | Meaning::Record(_)) => false,
        Found::Nothing | Found::Local(_) => false,
    }
}

/// Whether a name is a constant's or a member's.
pub fn is_literal_name(known: &Known, name: &[u8]) -> bool
    ensures { result ≡ is_literal_name known.now name.now }
{
    match known.globals.get(name) {
        Some(Meaning::Constant(_) | Meaning::Member(_)) => true,
        _ => false,
    }
}
