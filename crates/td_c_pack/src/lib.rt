//! Two exports for C: a module text becomes the image of its code, or is refused; an image becomes C, or is refused.
//! capi/td_pack.h is the header, and docs/c-library.md says what C owes. It stands apart from td_c, so that what validates
//! messages has no compiler in it.
#![tactic(auto)]

mod fault;
mod pack;
mod refusal;
mod room;
mod written;
