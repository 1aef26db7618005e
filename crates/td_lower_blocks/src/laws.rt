//! A law of blocks. It does nothing when it is called.

ghost use Rattle.td_lower_blocks.specs.Block.{LayingOut};

/// A block that is laid out somewhere in code stands there.
pub fn laying_out()
    ensures { LayingOut }
{}
