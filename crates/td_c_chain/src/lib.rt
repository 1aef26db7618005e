//! The export for C by which a chain of descriptors is walked in memory that a guest stores to. capi/td_chain.h is the header, and
//! docs/c-library.md says what C owes.
#![tactic(auto)]

mod inside;
mod rows;
mod told;
mod walk;
