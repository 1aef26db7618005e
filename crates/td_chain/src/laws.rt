//! Laws of chains. They do nothing when they are called.

ghost use Rattle.td_chain.specs.Laws.{IsWorkedChain, SomeMemoryHolds};

/// If no word was loaded twice, some memory holds what was loaded: so "every memory that holds the loads" is never none.
pub fn some_memory_holds()
    ensures { SomeMemoryHolds }
{}

/// The worked table.
pub fn worked_chain()
    ensures { IsWorkedChain }
{}
