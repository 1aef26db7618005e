//! The code of compiled validators: instructions, the tables that they name, what code does on a message that stays, and
//! the listing. The layer above rests on two promises: the tables of a `Code` fit together, and a listing is the lines of
//! its instructions. What is safe to run, td_verify says.
#![tactic(auto)]

pub mod code;
pub mod constants;
pub mod entries;
pub mod fields;
mod fitting;
pub mod instructions;
pub mod laws;
pub mod listing;
pub mod opcodes;
pub mod tables;

pub use code::{BadTable, Code};
pub use entries::{entry_in, fits};
pub use instructions::Instr;
pub use tables::{EntryPoint, Parts, Routine, Site};
