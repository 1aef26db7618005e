//! A ring of posts that threads share, and tickets that they draw. The layer above rests on two promises. All posts made
//! stand in one list, in which each thread's posts keep their order; what was taken is a prefix of it, each post taken once,
//! and each thread's takes rise in it. All tickets drawn are 0, 1, 2 .. modulo 2^64, each drawn once. Nothing is said of
//! progress, nor of order in time between threads that never met.
#![tactic(auto)]

pub mod laws;
pub mod naming;
pub mod passes;
pub mod post;
pub mod ring;
pub mod roll;
mod rule;
mod ticket_rule;
pub mod ticket_seat;
pub mod tickets;
pub mod view;
