//! Why an input has no tree.

use std::alloc::AllocError;
use td_ast::token::Span;

/// Why an input has no tree.
#[derive(Clone, Copy, PartialEq, Eq)]
pub enum FlatError {
    /// N2: a part has the name of an earlier one.
    Twice { span: Span },
    /// N5: a part is used in a cycle.
    Cycle { span: Span },
    /// There was no memory for the tree.
    NoMemory,
}

impl From<AllocError> for FlatError {
    ghost use Rattle.std.specs.Prelude.{◌≡◌};
    ghost use Rattle.td_front_flat.specs.declared.error.FlatError.TheVariants.{NoMemory};

    ghost from_gives = { λ _ e. e ≡ NoMemory };

    fn from(_error: AllocError) -> FlatError {
        FlatError::NoMemory
    }
}
