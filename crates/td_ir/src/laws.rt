//! Laws of what code does. They do nothing when they are called.

ghost use Rattle.td_ir.specs.RunLaws.{RunGoes, RunFails, RunReturns, RunTurns, RunCalls, RunLoops, AfterAfter};

/// From an instruction that leads to a later one of its routine: as from there, with what it looked at and its steps
/// before.
pub fn run_goes()
    ensures { RunGoes }
{}

/// From an instruction that fails: that failure, with its frame alone.
pub fn run_fails()
    ensures { RunFails }
{}

/// From a return: back at the position.
pub fn run_returns()
    ensures { RunReturns }
{}

/// From the end of a loop's turn: that turn's end.
pub fn run_turns()
    ensures { RunTurns }
{}

/// From a call of a lower routine: the callee from its first instruction on, and then as from the next instruction.
pub fn run_calls()
    ensures { RunCalls }
{}

/// From a loop: its turns, and then as from what stands behind it.
pub fn run_loops()
    ensures { RunLoops }
{}

/// What was looked at in two stretches is a list behind the other, and their steps add up.
pub fn after_after()
    ensures { AfterAfter }
{}
