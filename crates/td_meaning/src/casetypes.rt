//! The fields that a casetype has for a value of its switch.

ghost use Rattle.std.specs.Prelude.{◌≡◌, MatchOption, None, Some};
ghost use Rattle.td_meaning.specs.Meaning.{case_for};
ghost use Rattle.td_meaning.specs.Words64.{body_fields};

use crate::expressions::value_of;
use td_core::module::{Body, Case, Field};
use td_num::items::Items;

/// The fields of the first case for a value, else those of `default`.
pub fn case_for<'a>(
    value: u64,
    cases: &'a [Case],
    default: &'a Option<Items<Field>>,
) -> Option<&'a Items<Field>>
    ensures { MatchOption result (case_for value cases.now default.now ≡ None)
        (λ fields. case_for value cases.now default.now ≡ Some fields.now) }
{
    for case in cases {
        if case.value == value {
            return Some(&case.fields);
        }
    }
    match default {
        Some(fields) => Some(fields),
        None => None,
    }
}

/// The fields of a definition for these arguments; none where no case fits.
pub fn body_fields<'a>(body: &'a Body, args: &[u64]) -> Option<&'a Items<Field>>
    ensures { MatchOption result (body_fields body.now args.now ≡ None)
        (λ fields. body_fields body.now args.now ≡ Some fields.now) }
{
    match body {
        Body::Struct(fields) => Some(fields),
        Body::Casetype {
            switch,
            cases,
            default,
        } => case_for(value_of(switch, args), cases.as_slice(), default),
    }
}
