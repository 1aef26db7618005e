//! What values say of the end of bytes, while it isn't known.

ghost use Rattle.std.specs.Prelude.{◌≡◌, ◌+◌, ◌++◌, ◌∷◌, ◌≤◌, [], length, take, drop, nat_eq, IfOk, IfErr, MatchOption};
ghost use Rattle.td_write_values.specs.Writing.{Written, Refused, agreed};
ghost use Rattle.td_write.specs.Writes.{claims_of, Halts};

use crate::halt::Halt;
use crate::walk::{Claim, Draft};
use std::alloc::Global;
use td_write_values::error::WriteRule;

/// Notes that the value at hand says how many bytes are left there.
pub(crate) fn claim(alloc: Global, left: u64, draft: &mut Draft) -> Result<(), Halt>
    ensures ok { IfOk result (λ _. claims_of draft.new.claims.items
        ≡ claims_of draft.old.claims.items ++ record { end = length draft.old.out.items + left; path = draft.old.path.items } ∷ []) }
    ensures out { draft.new.out.items ≡ draft.old.out.items }
    ensures path { draft.new.path.items ≡ draft.old.path.items }
    ensures err { IfErr result (λ h. h ≡ Halt.NoMemory) }
{
    let path = Vec::from_slice(alloc, draft.path.as_slice())?;
    draft.claims.push(Claim {
        place: draft.out.len(),
        left,
        path,
    })?;
    Ok(())
}

// Whether a claim says that the bytes end there.
fn says(claim: &Claim, end: usize) -> bool
    ensures { result ≡ nat_eq (claim.now.place + claim.now.left) end }
{
    match (claim.place as u64).checked_add(claim.left) {
        Some(said) => said == end as u64,
        None => false,
    }
}

// The path of the first claim that says another end.
fn wrong_claim(claims: &[Claim], end: usize) -> Option<&[usize]>
    ensures { MatchOption result ((next : Written) → agreed end (claims_of claims.now) next ≡ next)
        (λ path. (next : Written) → agreed end (claims_of claims.now) next ≡ Refused WriteRule.Size path.now) }
{
    for claim in claims {
        if !says(claim, end) {
            return Some(claim.path.as_slice());
        }
    }
    None
}

/// Looks at what was said from a claim on, now that the bytes are written up to their end, and forgets it. After a fault the path
/// is that of the first value that says another end.
pub(crate) fn settle(alloc: Global, first: usize, draft: &mut Draft) -> Result<(), Halt>
    requires { first ≤ length draft.old.claims.items }
    ensures ok { IfOk result (λ _. (next : Written)
        → agreed (length draft.old.out.items) (drop first (claims_of draft.old.claims.items)) next ≡ next) }
    ensures left { IfOk result (λ _. draft.new.claims.items ≡ take first draft.old.claims.items) }
    ensures path { IfOk result (λ _. draft.new.path.items ≡ draft.old.path.items) }
    ensures out { draft.new.out.items ≡ draft.old.out.items }
    ensures err { IfErr result (λ h. (next : Written) → Halts h draft.new.path.items
        (agreed (length draft.old.out.items) (drop first (claims_of draft.old.claims.items)) next)) }
{
    let end = draft.out.len();
    match wrong_claim(&draft.claims.as_slice()[first..], end) {
        Some(path) => {
            draft.path = Vec::from_slice(alloc, path)?;
            return Err(Halt::Broken(WriteRule::Size));
        }
        None => {}
    }
    draft.claims.truncate(first);
    Ok(())
}
