//! What is known before and inside a definition.

ghost use Rattle.std.specs.Prelude.{◌≡◌};
ghost use Rattle.td_elab_rules.specs.Known.{no_scope, nothing_known, none_taken};

use std::alloc::Global;
use td_elab_rules::known::{Known, Scope, Taken};
use td_names::names::Names;
use td_names::table::Table;
use td_num::items::Items;

/// What is known before the first definition. Takes no memory.
pub fn nothing_known(alloc: Global) -> Known
    ensures { result ≡ nothing_known }
{
    Known {
        count: 0,
        globals: Table::new(alloc),
        used: Names::new(alloc),
        records: Items::new(alloc),
        signatures: Items::new(alloc),
        kinds: Items::new(alloc),
        definitions: Items::new(alloc),
        listed: Items::new(alloc),
        entries: Items::new(alloc),
    }
}

/// The scope outside structs and casetypes. Takes no memory.
pub(crate) fn no_scope(alloc: Global) -> Scope
    ensures { result ≡ no_scope }
{
    Scope {
        locals: Table::new(alloc),
        levels: 0,
        cells: Items::new(alloc),
        buffers: Items::new(alloc),
        start: None,
        this: None,
    }
}

/// The names before a definition gives any. Takes no memory.
pub(crate) fn none_taken(alloc: Global) -> Taken
    ensures { result ≡ none_taken }
{
    Taken {
        outer: Names::new(alloc),
        fields: Names::new(alloc),
        all: Names::new(alloc),
    }
}
