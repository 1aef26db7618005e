//! Names by their bytes: numbered as they are seen first, and tables of what stands beside them; and distinct numbers. The
//! layer above rests on one promise: a contract sees names as a list of bytes in order, a table as a list of pairs, and
//! numbers as a list.
#![tactic(auto)]

pub mod names;
pub mod numbers;
pub mod table;
