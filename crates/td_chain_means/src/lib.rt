//! What DESCRIPTOR of formats/vring_desc means of a descriptor's sixteen bytes, and that it is what td_chain reads in them.
#![tactic(auto)]

pub mod laws;
