//! What a validation is asked for.

use td_core::module::Entry;

/// An entry point of a module, and a value for each of its parameters, in order.
#[derive(Clone, Copy)]
pub struct Call<'a> {
    pub entry: Entry,
    pub args: &'a [u64],
}
