//! How a walk ended, as C sees it.

ghost use Rattle.std.specs.Prelude.{◌≡◌};
ghost use Rattle.td_c_chain.specs.Told.{end_told, error_number};

use td_chain::{ChainError, Refusal};

/// How a walk ended: how many pieces there are, and how many loads were made; and, if the chain was refused, why (a number of
/// `td_chain_error`), at which descriptor, and whether that is one of an indirect table (1) or of the queue's (0).
#[repr(C)]
#[derive(Clone, Copy)]
pub struct TdChainEnd {
    pub count: u64,
    pub load_count: u64,
    pub error: u32,
    pub descriptor: u32,
    pub is_indirect: u32,
}

// The number of `td_chain_error` in td_chain.h.
fn number_of(error: ChainError) -> u32
    ensures { result ≡ error_number error }
{
    match error {
        ChainError::Beyond => 1,
        ChainError::Outside => 2,
        ChainError::NotAllowed => 3,
        ChainError::WithNext => 4,
        ChainError::BadTable => 5,
        ChainError::OutOfOrder => 6,
        ChainError::TooLarge => 7,
        ChainError::TooLong => 8,
    }
}

/// As C sees it.
pub(crate) fn tell(count: u64, load_count: u64, walked: Result<(), Refusal>) -> TdChainEnd
    ensures { result ≡ end_told count load_count walked }
{
    match walked {
        Ok(()) => TdChainEnd {
            count,
            load_count,
            error: 0,
            descriptor: 0,
            is_indirect: 0,
        },
        Err(refusal) => TdChainEnd {
            count,
            load_count,
            error: number_of(refusal.error),
            descriptor: refusal.descriptor,
            is_indirect: if refusal.is_indirect { 1 } else { 0 },
        },
    }
}
