//! Code in blocks: what a module's definitions are compiled to, before places of instructions are known. The layers above,
//! of which one writes such code, one shows that the verifier accepts it, and one that it does what the module means, speak of
//! these blocks.
#![tactic(auto)]

pub mod laws;
