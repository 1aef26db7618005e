//! Laws. They do nothing when they are called.

ghost use Rattle.td_prog_code.specs.Entry.{EntryRuns};
ghost use Rattle.td_prog_code.specs.PartsEntry.{EntryRunsInParts};
ghost use Rattle.td_prog_laws.specs.Depth.{ProgramIsShallow};
ghost use Rattle.td_prog_laws.specs.Frames.{FewFrames};
ghost use Rattle.td_prog_laws.specs.PartsText.{PartsProgramIsText};
ghost use Rattle.td_prog_laws.specs.Text.{ProgramIsText};

use td_prog_runs::laws::{program_runs, program_runs_in_parts};
use td_verify::laws::sound_code_is_safe;
use td_verify_runs::laws::{run_stays_within, turn_takes};

/// A compiler of C accepts the program of verified code: what it names is declared above, once; each goto leads to its label, which
/// is behind it; functions have names of their own.
pub fn program_is_text()
    ensures { ProgramIsText }
{
    sound_code_is_safe();
    turn_takes();
}

/// A failure of verified code has at most 32 frames, so an outcome of C, which has room for 32, holds them all.
pub fn few_frames()
    ensures { FewFrames }
{}

/// The program of verified code calls at most 32 routines deep.
pub fn program_is_shallow()
    ensures { ProgramIsShallow }
{}

/// The C function of an entry point tells its caller what the code's run tells.
pub fn entry_runs()
    ensures { EntryRuns }
{
    program_runs();
    run_stays_within();
    few_frames();
}

/// The C function of an entry point for messages in pieces tells its caller what the code's run tells.
pub fn entry_runs_in_parts()
    ensures { EntryRunsInParts }
{
    program_runs_in_parts();
    run_stays_within();
    few_frames();
}

/// A compiler of C accepts the program of verified code for messages in pieces, with td_byte and what it calls as fixed text.
pub fn parts_program_is_text()
    ensures { PartsProgramIsText }
{
    program_is_text();
}
