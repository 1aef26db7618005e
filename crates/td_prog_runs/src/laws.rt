//! Laws. They do nothing when they are called.

ghost use Rattle.td_prog_code.specs.Sentence.{ProgramRuns};
ghost use Rattle.td_prog_code.specs.PartsSentence.{ProgramRunsInParts};
ghost use Rattle.td_prog_runs.specs.Theorem.{CodeInC, CodeInParts, SoundCodeInC, SoundCodeInParts};

use td_prog_steps::laws::program_agrees;
use td_verify::laws::sound_code_is_safe;
use td_verify_runs::laws::{run_answers, turn_takes};

/// The program of code does what the code does, whatever memory gives to its loads.
pub fn code_in_c()
    ensures { CodeInC }
{
    program_agrees();
}

/// The same of code that the verifier accepts.
pub fn sound_code_in_c()
    ensures { SoundCodeInC }
{
    sound_code_is_safe();
    run_answers();
    turn_takes();
    code_in_c();
}

/// The sentence: the program of verified code, from its entry points.
pub fn program_runs()
    ensures { ProgramRuns }
{
    sound_code_in_c();
}

/// The program that is written for messages in pieces does what the code does, however the message lies and whatever memory gives to its loads.
pub fn code_in_parts()
    ensures { CodeInParts }
{
    program_agrees();
}

/// The same of code that the verifier accepts.
pub fn sound_code_in_parts()
    ensures { SoundCodeInParts }
{
    sound_code_is_safe();
    run_answers();
    turn_takes();
    code_in_parts();
}

/// The sentence for messages in pieces: the program of verified code, from its entry points.
pub fn program_runs_in_parts()
    ensures { ProgramRunsInParts }
{
    sound_code_in_parts();
}
