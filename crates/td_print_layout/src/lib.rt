//! The canonical text of an input, a module or parts, as a definition over trees; and texts that are written token by token.
//! The layer above rests on one promise: the canonical text of a tree that some text spells splits into tokens that spell that
//! tree again, its places aside.
#![tactic(auto)]

pub mod laws;
