//! Which fields are copied.

ghost use Rattle.std.specs.Prelude.{MatchOption};
ghost use Rattle.td_direct.specs.Copying.{IsKept, IsCopiedBy};

use td_core::expressions::CoreExpr;
use td_core::module::{CopyOut, Extent, Field};

/// Where the bytes of a field go, and how many they are.
#[derive(Clone, Copy)]
pub struct Copied<'a> {
    pub copy: CopyOut,
    pub size: &'a CoreExpr,
}

/// Where the bytes of a field go; none where they aren't copied.
pub(crate) fn copied_in(field: &Field) -> Option<Copied<'_>>
    ensures { MatchOption result (IsKept field.now) (λ c. IsCopiedBy field.now c.copy c.size.now) }
{
    let Some(copy) = field.copy else {
        return None;
    };
    match &field.extent {
        Extent::Filling { size, .. } => Some(Copied { copy, size }),
        Extent::Once => None,
        Extent::OnceFilling { .. } => None,
        Extent::UpToZero { .. } => None,
        Extent::Given(_) => None,
    }
}
