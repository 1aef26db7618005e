//! The limits of a module text: what its trees count, and how deep and how heavy its definitions are. The layer above
//! rests on one promise: the first limit that a text passes is answered, with its place, or that it passes none.
#![tactic(auto)]

mod counts;
mod depths;
mod limits;
mod longest_action;
mod measures;
mod nodes;
mod sizes;
mod weights;

pub use counts::{counts_passed, counts_passed_in};
pub use limits::{Excess, Limit};
pub use measures::{Measure, NameSort};
pub use nodes::definition_nodes;
pub use sizes::sizes_passed;
