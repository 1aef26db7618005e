//! Tests across crates, of what no run of the built program shows: that other sources and sinks serve too, that guests and
//! workers run at the same time, that a post is made with its own guest's seat, and that a worker loads for a post only after it
//! took it. Gates hold a thread until a message was answered, which they look up in a list that all of them share. Each test ends
//! by itself. What the program answers to inputs stands in `cases/`. It is a program, which does nothing when it is run, as
//! nothing stands on it and `rt` builds no library of a program.
#![tactic(auto)]

#[cfg(test)]
mod ends;
#[cfg(test)]
mod gates;
#[cfg(test)]
mod hosts;

fn main(_rt: HostRuntime) {}
