//! Exports for C: an image is read, verified and kept behind a handle, and messages in memory that others store to are validated by
//! its code. capi/td.h is the header, and docs/c-library.md says what C owes.
#![tactic(auto)]

mod answers;
mod call;
mod copies;
mod exports;
mod frames;
mod handle;
mod images;
mod parts;
mod pieces;
mod room;
mod tables;
mod versions;
