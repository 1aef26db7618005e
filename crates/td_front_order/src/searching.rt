//! The first of those that one uses that isn't taken.

ghost use Rattle.std.specs.Prelude.{◌≡◌, ◌<◌, true, false, drop, length, slice_index, MatchOption};
ghost use Rattle.std.specs.List.{list_all};
ghost use Rattle.td_num.specs.Lists.{is_among};
ghost use Rattle.td_front_order.specs.Flags.{flag_at};

use crate::flags::is_flagged;

// The place of the first that isn't taken, from a place on.
fn untaken_from(flags: &[bool], used: &[u32], from: usize) -> Option<usize>
    ensures { MatchOption result (list_all (flag_at flags.now) (drop from used.now) ≡ true) (λ at. (at < length used.now) × (flag_at flags.now (slice_index used.now at) ≡ false)) }
{
    let mut at = from;
    while at < used.len() {
        if !is_flagged(flags, used[at]) {
            return Some(at);
        }
        at += 1;
    }
    None
}

// The place of one that isn't taken: the search goes on from a place, and where there is none, all are looked at once more, so
// nothing rests on the place but the time.
fn untaken_place(flags: &[bool], used: &[u32], from: usize) -> Option<usize>
    ensures { MatchOption result (list_all (flag_at flags.now) used.now ≡ true) (λ at. (at < length used.now) × (flag_at flags.now (slice_index used.now at) ≡ false)) }
{
    match untaken_from(flags, used, from) {
        Some(at) => Some(at),
        None => untaken_from(flags, used, 0),
    }
}

// Where the last search ended. What is taken stays taken, so searches from there on look at each use once.
fn cursor_of(cursors: &[usize], number: u32) -> usize {
    match cursors.get(number as usize) {
        Some(cursor) => *cursor,
        None => 0,
    }
}

fn set_cursor(cursors: &mut [usize], number: u32, at: usize) {
    if (number as usize) < cursors.len() {
        cursors[number as usize] = at;
    }
}

/// One of those used that isn't taken, or none where all are. `cursors` has where the last search for each ended.
#[tactic(auto, using(crate::proofs::Searched::among_at))]
pub(crate) fn untaken(
    flags: &[bool],
    used: &[u32],
    cursors: &mut [usize],
    number: u32,
) -> Option<u32>
    ensures { MatchOption result (list_all (flag_at flags.now) used.now ≡ true) (λ other. (is_among used.now other ≡ true) × (flag_at flags.now other ≡ false)) }
{
    match untaken_place(flags, used, cursor_of(cursors, number)) {
        Some(at) => {
            set_cursor(cursors, number, at);
            Some(used[at])
        }
        None => None,
    }
}
