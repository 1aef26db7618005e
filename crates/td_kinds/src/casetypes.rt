//! The bodies of definitions.

ghost use Rattle.std.specs.Prelude.{◌≡◌};
ghost use Rattle.td_kinds.specs.Kinds.{kind_at, body_kind, cases_kind, default_kind};
ghost use Rattle.td_kinds.specs.KindRules.{body_faults, cases_faults, first_fault};

use crate::error::KindFault;
use crate::fields::{fields_fault, fields_kind};
use crate::sizes::{exactly, spanned};
use td_core::kind::Kind;
use td_core::module::{Body, Case};

/// The kind of a struct or a casetype, by the kinds of the definitions before it, in their order.
pub fn body_kind(kinds: &[Kind], body: &Body) -> Kind
    ensures { result ≡ body_kind (kind_at kinds.now) body.now }
{
    match body {
        Body::Struct(fields) => fields_kind(kinds, fields.as_slice()),
        Body::Casetype { cases, default, .. } => {
            let otherwise = match default {
                Some(fields) => Some(fields_kind(kinds, fields.as_slice())),
                None => None,
            };
            cases_kind(kinds, otherwise, cases.as_slice())
        }
    }
}

/// What spans the kinds of all cases and that of `default`; of no bytes where there is neither.
fn cases_kind(kinds: &[Kind], otherwise: Option<Kind>, cases: &[Case]) -> Kind
    ensures { result ≡ cases_kind (kind_at kinds.now) otherwise cases.now }
{
    let mut kind = otherwise;
    for case in cases {
        let own = fields_kind(kinds, case.fields.as_slice());
        kind = Some(match kind {
            Some(so_far) => spanned(so_far, own),
            None => own,
        });
    }
    kind.unwrap_or(exactly(0))
}

/// The first of what is refused of a struct or a casetype, in the order of the text.
pub(crate) fn body_fault(kinds: &[Kind], body: &Body) -> Option<KindFault>
    ensures { result ≡ first_fault (body_faults (kind_at kinds.now) body.now) }
{
    match body {
        Body::Struct(fields) => fields_fault(kinds, fields.as_slice()),
        Body::Casetype { cases, default, .. } => match cases_fault(kinds, cases.as_slice()) {
            Some(fault) => Some(fault),
            None => match default {
                Some(fields) => fields_fault(kinds, fields.as_slice()),
                None => None,
            },
        },
    }
}

/// The first of what is refused of cases.
fn cases_fault(kinds: &[Kind], cases: &[Case]) -> Option<KindFault>
    ensures { result ≡ first_fault (cases_faults (kind_at kinds.now) cases.now) }
{
    for case in cases {
        if let Some(fault) = fields_fault(kinds, case.fields.as_slice()) {
            return Some(fault);
        }
    }
    None
}
