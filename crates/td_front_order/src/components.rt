//! Strongly connected components, by two passes in depth. Nothing here has a clause: what it makes is looked at where it is used.

use crate::flags::{is_flagged, used_by};
use crate::waiting::empty_lists;
use std::alloc::{AllocError, Global};
use td_num::items::Items;

// For each, those that use it.
fn users_of(alloc: Global, graph: &[Items<u32>]) -> Result<Vec<Items<u32>>, AllocError> {
    let mut users = empty_lists(alloc, graph.len())?;
    let lists = users.as_mut_slice();
    let mut number = 0u32;
    for used in graph {
        add_user(lists, used.as_slice(), number)?;
        number = number.saturating_add(1);
    }
    Ok(users)
}

fn add_user(users: &mut [Items<u32>], used: &[u32], number: u32) -> Result<(), AllocError> {
    for other in used {
        if (*other as usize) < users.len() {
            users[*other as usize].push(number)?;
        }
    }
    Ok(())
}

// Whether it wasn't flagged; now it is.
fn flag(flags: &mut [bool], number: u32) -> bool {
    if is_flagged(flags, number) || number as usize >= flags.len() {
        return false;
    }
    flags[number as usize] = true;
    true
}

/// All, each after those that are come to from it by their users and weren't come to before.
pub(crate) fn finished(alloc: Global, graph: &[Items<u32>]) -> Result<Items<u32>, AllocError> {
    let users = users_of(alloc, graph)?;
    let mut seen = vec![in alloc; false; graph.len()]?;
    let mut path = places(alloc, graph)?;
    let mut last = Items::new(alloc);
    for _step in 0..u64::MAX {
        let Some((number, at)) = path.pop() else {
            break;
        };
        if at > 0 || flag(seen.as_mut_slice(), number) {
            go_on(users.as_slice(), &mut path, &mut last, number, at)?;
        }
    }
    Ok(last)
}

// The next user of one that is on the path, or its end.
fn go_on(
    users: &[Items<u32>],
    path: &mut Vec<(u32, usize)>,
    last: &mut Items<u32>,
    number: u32,
    at: usize,
) -> Result<(), AllocError> {
    match used_by(users, number).get(at) {
        None => last.push(number),
        Some(user) => {
            path.push((number, at.saturating_add(1)))?;
            path.push((*user, 0))?;
            Ok(())
        }
    }
}

// Each at its first user.
fn places(alloc: Global, graph: &[Items<u32>]) -> Result<Vec<(u32, usize)>, AllocError> {
    let mut path = Vec::new(alloc);
    let mut number = 0u32;
    for _used in graph {
        path.push((number, 0))?;
        number = number.saturating_add(1);
    }
    Ok(path)
}

/// From the last that was finished: it is as high as all that it reaches and that isn't settled yet, and lower than what comes
/// after.
pub(crate) fn settled(
    alloc: Global,
    graph: &[Items<u32>],
    last: &[u32],
) -> Result<Items<u32>, AllocError> {
    let mut heights = vec![in alloc; 0u32; graph.len()]?;
    let mut left = lowest_last(alloc, last)?;
    for _step in 0..u64::MAX {
        let Some((number, height)) = left.pop() else {
            break;
        };
        if settle(heights.as_mut_slice(), number, height) {
            for used in used_by(graph, number) {
                left.push((*used, height))?;
            }
        }
    }
    Ok(Items::of(heights))
}

// Whether it wasn't settled; now it is.
fn settle(heights: &mut [u32], number: u32, height: u32) -> bool {
    if number as usize >= heights.len() || heights[number as usize] > 0 {
        return false;
    }
    heights[number as usize] = height;
    true
}

// Each with a height of its own, the last with the lowest. (More than 2^32 - 2 would share 0, and be looked at in vain.)
fn lowest_last(alloc: Global, last: &[u32]) -> Result<Vec<(u32, u32)>, AllocError> {
    let mut left = Vec::new(alloc);
    let mut height = u32::MAX;
    for number in last {
        left.push((*number, height))?;
        height = height.saturating_sub(1);
    }
    Ok(left)
}
