//! The writer: a value as the bytes that spell it by a type, while all of the type's own tests are made. The layer above rests on
//! one promise: what is appended spells the value and the module accepts it to its end with the outcome that is answered; and a
//! value that isn't written has no such bytes, and is refused at its first fault in the order of the fields.
#![tactic(auto)]

mod arrays;
mod bodies;
mod bytes;
mod claims;
mod copies;
mod elements;
mod fields;
mod given;
mod halt;
mod leaves;
mod numbers;
mod parts;
mod types;
mod units;
mod walk;
mod write;

pub use write::write_value;
