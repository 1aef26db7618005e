//! The part under whose name a field fails that lacks bytes.

ghost use Rattle.std.specs.Prelude.{◌≡◌};
ghost use Rattle.td_meaning.specs.Meaning.{first_name};

use td_core::module::{NameId, Part};

/// The name under which a field without its bytes fails: its first part's.
pub fn first_name(parts: &[Part]) -> NameId
    ensures { result ≡ first_name parts.now }
{
    match parts.first() {
        Some(part) => part.name,
        None => NameId { number: 0 },
    }
}
