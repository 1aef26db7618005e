//! A law of the program of a code. It does nothing when it is called.

ghost use Rattle.td_prog_steps.specs.Laws.{ProgramAgrees};

/// The program of code that is laid well agrees with the code's run, on memory that stays.
pub fn program_agrees()
    ensures { ProgramAgrees }
{}
