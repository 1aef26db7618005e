//! Why a module's kinds are refused.

use std::alloc::{AllocError, AllocFailed};
use td_ast::token::Span;

/// A field whose kind is refused; the place is its name's.
#[derive(Clone, Copy, PartialEq, Eq, Debug)]
pub enum KindFault {
    /// K1: an element of its byte-sized array may take no byte, so that a number of them might never fill it.
    ZeroElement { span: Span },
    /// K2: it takes all bytes up to the end and another field follows, or elements of its byte-sized array take them.
    RestNotLast { span: Span },
}

/// Why a module has no kinds.
#[derive(Clone, Copy, PartialEq, Eq, Drop)]
pub enum KindError {
    /// K1: an element of this field's byte-sized array may take no byte.
    ZeroElement { span: Span },
    /// K2: this field takes all bytes up to the end and isn't the last, or elements of its byte-sized array take them.
    RestNotLast { span: Span },
    /// There was no memory for the kinds.
    NoMemory,
}

impl From<KindFault> for KindError {
    ghost use Rattle.std.specs.Prelude.{◌≡◌};
    ghost use Rattle.td_kinds.specs.KindRules.{error_of};

    ghost from_gives = { λ fault e. e ≡ error_of fault };

    fn from(fault: KindFault) -> KindError {
        match fault {
            KindFault::ZeroElement { span } => KindError::ZeroElement { span },
            KindFault::RestNotLast { span } => KindError::RestNotLast { span },
        }
    }
}

impl From<AllocError> for KindError {
    ghost use Rattle.std.specs.Prelude.{◌≡◌};
    ghost use Rattle.td_kinds.specs.declared.error.KindError.TheVariants.{NoMemory};

    ghost from_gives = { λ _ e. e ≡ NoMemory };

    fn from(_error: AllocError) -> KindError {
        KindError::NoMemory
    }
}

impl<T: Drop> From<AllocFailed<T>> for KindError {
    ghost use Rattle.std.specs.Prelude.{◌≡◌};
    ghost use Rattle.td_kinds.specs.declared.error.KindError.TheVariants.{NoMemory};

    ghost from_gives = { λ _ e. e ≡ NoMemory };

    fn from(_error: AllocFailed<T>) -> KindError {
        KindError::NoMemory
    }
}
