//! Laws of the runs of verified code. They do nothing when they are called.

ghost use Rattle.td_verify_runs.specs.Laws.{RunIsBounded, RunAnswers, RunStaysWithin, TurnTakes};

use td_verify::laws::sound_code_is_safe;

/// A run of verified code from one of its entry points takes no more steps than the entry point's weight, for each byte of the
/// message and once more. These are the steps of the definition `run`, whatever runs the code.
pub fn run_is_bounded()
    ensures { RunIsBounded }
{
    sound_code_is_safe();
}

/// A run of a routine of verified code comes to an answer: it returns or fails. It is never stuck, and never left as a loop's
/// turn is.
pub fn run_answers()
    ensures { RunAnswers }
{
    sound_code_is_safe();
}

/// A run of a routine of verified code that returns has not passed the message's end.
pub fn run_stays_within()
    ensures { RunStaysWithin }
{
    sound_code_is_safe();
}

/// A turn of a loop of verified code that ends takes a byte, and leaves the end of the window as it was.
pub fn turn_takes()
    ensures { TurnTakes }
{
    sound_code_is_safe();
}
