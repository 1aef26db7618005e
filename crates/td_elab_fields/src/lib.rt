//! Fields elaborated: their types with arguments, what stands after their names, units of bit fields, and the size of the
//! leading fields of a struct. The layer above rests on one promise: `fields` answers the core fields of td_elab_rules'
//! definitions, and keeps the first breach beside them.
#![tactic(auto)]

mod arrays;
mod bit_fields;
mod copies;
pub mod fields;
mod flat;
mod given;
pub mod leading;
