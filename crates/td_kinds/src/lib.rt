//! How many bytes the values of types take (after EverParse's parser kinds). The layer above rests on one promise: a
//! module is admitted exactly where no element of a byte-sized array may be empty, and what takes all bytes up to the
//! end stands last; else the first fault in the order of the text is named.
#![tactic(auto)]

pub mod casetypes;
pub mod elements;
pub mod error;
pub mod fields;
pub mod modules;
pub mod sizes;
