//! Definitions without fields, elaborated: constants, enums, other names for types, output records; and the parameters of
//! structs and casetypes. The layer above rests on one promise: what is known after each is what the definitions of
//! td_elab_rules say, and the first breach is kept beside it.
#![tactic(auto)]

pub mod aliases;
pub mod constants;
pub mod enums;
pub mod names;
pub mod numbers;
pub mod parameters;
pub mod records;
pub mod rooms;
pub mod scopes;
pub mod slots;
