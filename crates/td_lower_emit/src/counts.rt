//! Counts the sites of definitions.

ghost use Rattle.std.specs.Prelude.{◌≡◌, ◌<◌, ◌^◌, ◌+◌, Some};
ghost use Rattle.td_lower_blocks.specs.Lowered.{parts_in, cases_parts, default_parts, body_parts, sites_in};

use td_core::module::{Body, Case, Field, TypeDef};

/// How many parts fields have.
pub(crate) fn count_parts(fields: &[Field]) -> u32
    requires { parts_in fields.now < 2 ^ 32 }
    ensures { result ≡ parts_in fields.now }
{
    let Some((field, rest)) = fields.split_first() else {
        return 0;
    };
    field.parts.len() as u32 + count_parts(rest)
}

// How many the fields of cases have.
fn count_cases(cases: &[Case]) -> u32
    requires { cases_parts cases.now < 2 ^ 32 }
    ensures { result ≡ cases_parts cases.now }
{
    let Some((case, rest)) = cases.split_first() else {
        return 0;
    };
    count_parts(case.fields.as_slice()) + count_cases(rest)
}

/// How many sites a definition has: one for its `where`, one for its switch value, and one for each part.
pub fn count_sites(d: &TypeDef) -> u32
    requires { 2 + body_parts d.now.body < 2 ^ 32 }
    ensures { result ≡ sites_in (Some d.now) }
{
    match &d.body {
        Body::Struct(fields) => 2 + count_parts(fields.as_slice()),
        Body::Casetype { cases, default, .. } => match default {
            None => 2 + count_cases(cases.as_slice()),
            Some(fields) => 2 + count_cases(cases.as_slice()) + count_parts(fields.as_slice()),
        },
    }
}
