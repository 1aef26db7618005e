//! What the code of a module's definitions does: what the module means. The layer above rests on two laws: code that is the
//! blocks of a module's definitions, laid out, leaves as the meaning ends, and looks at what the meaning reads; and what lowering
//! asks of a module's definitions holds of a checked one's.
#![tactic(auto)]

pub mod laws;
