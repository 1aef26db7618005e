//! Which numbers of a struct a validation must read, found in time that grows with the struct alone. The layer above
//! rests on one promise: a field's flag is set exactly where its number is needed.
#![tactic(auto)]

pub mod flags;
