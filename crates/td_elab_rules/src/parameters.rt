//! What is known of a definition while its parameters are read.

use crate::known::{Parameter, Scope, Taken};
use td_core::module::{Buffer, Cell, Param};
use td_num::items::Items;

/// A head so far.
#[derive(Drop)]
pub struct Head {
    /// The names of the parameters, the cells, and the rooms of the copy buffers.
    pub scope: Scope,
    /// What each parameter takes.
    pub parameters: Items<Parameter>,
    /// The value parameters of the definition.
    pub params: Items<Param>,
    /// The cells of the definition.
    pub cells: Items<Cell>,
    /// The copy buffers of the definition.
    pub buffers: Items<Buffer>,
    /// The names of the parameters.
    pub taken: Taken,
}
