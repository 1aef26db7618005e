//! The gates of a job's workers and guests.

ghost use Rattle.std.specs.Prelude.{◌≡◌, ◌+◌, ◌*◌, ◌≤◌, ◌++◌, length, take, drop, IfOk};

use std::alloc::AllocError;

/// How many gates there are for workers, and how many for guests after them.
pub const GATES_OF_EACH: usize = td_posts::limits::MOST_WORKERS as usize;

/// The first gates of each half, so many of the workers' and then so many of the guests'. `AllocError`: there was no memory.
pub fn gates_of<G: Drop>(gates: Vec<G>, workers: usize, guests: usize) -> Result<Vec<G>, AllocError>
    requires both { length gates.items ≡ 2 * GATES_OF_EACH }
    requires workers { workers ≤ GATES_OF_EACH }
    requires guests { guests ≤ GATES_OF_EACH }
    ensures first { IfOk result (λ chosen. chosen.items ≡ take workers gates.items ++ take guests (drop GATES_OF_EACH gates.items)) }
    ensures count { IfOk result (λ chosen. length chosen.items ≡ workers + guests) }
{
    let mut of_workers = gates;
    let mut of_guests = of_workers.split_off(GATES_OF_EACH)?;
    of_workers.truncate(workers);
    of_guests.truncate(guests);
    of_workers.append(&mut of_guests)?;
    Ok(of_workers)
}
