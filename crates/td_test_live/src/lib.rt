//! Tests of what no built program shows: a buffer that threads share, validation in it, a ring of posts and tickets, codes that
//! are published one after the other, step by step and under real threads, with ample memory. Each test ends by itself,
//! whatever the schedule. Nothing stands on this crate.
#![tactic(auto)]

#[cfg(test)]
mod buffer;
#[cfg(test)]
mod drawers;
#[cfg(test)]
mod posters;
#[cfg(test)]
mod posts;
#[cfg(test)]
mod readers;
#[cfg(test)]
mod slots;
#[cfg(test)]
mod small;
#[cfg(test)]
mod swaps;
#[cfg(test)]
mod validated;
#[cfg(test)]
mod versions;
#[cfg(test)]
mod words;
