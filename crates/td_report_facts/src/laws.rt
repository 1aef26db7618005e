//! Laws of what reports tell. They do nothing when they are called.

ghost use Rattle.td_report_facts.specs.Laws.{CopiesHaveRoom, HostJobsAreSized, JobsAreSized, LoadsAreReportable, ModulesHaveWords, OutcomesAreReportable, RepliesAreReportable, RunsAreReportable};

use td_arith::laws::evaluated_is_sound;
use td_job_host::laws::jobs_keep_limits;
use td_meaning::laws::{
    copies_are_within, endings_are_within, frames_are_named, rejections_are_framed,
};
use td_write_spells::laws::{kinds_are_admitted, writing_is_exact};

/// Of each run job of a checked module the entry point is one of the module's, values fit their parameters and cells, the message is
/// as long as said and not too long, its stretches are few and at places of 64 bits, words and stores are of 64 bits, and what was
/// written of a value are bytes.
pub fn jobs_are_sized()
    ensures { JobsAreSized }
{
    writing_is_exact();
    kinds_are_admitted();
}

/// Each host job keeps its limits (the entry point of each version is one of its module's, values fit, messages, guests and posts are no more
/// than a job may have), its posts' stretches are few and at places of 64 bits, and its words and stores are of 64 bits.
pub fn host_jobs_are_sized()
    ensures { HostJobsAreSized }
{
    jobs_keep_limits();
}

/// The names of a checked module are words, no two are alike, and none is a word that a report has for what is no field.
pub fn modules_have_words()
    ensures { ModulesHaveWords }
{}

/// The outcome of a checked module on a message of at most a MiB, from arguments and cells that fit, has named frames, numbers of 64 bits,
/// a value for each cell, and bytes for each copy buffer: that of a descriptor of a ring, too.
pub fn outcomes_are_reportable()
    ensures { OutcomesAreReportable }
{
    evaluated_is_sound();
    endings_are_within();
    frames_are_named();
    rejections_are_framed();
}

/// What a checked module copies of a message, from arguments and cells that fit, fits the rooms of the entry point's copy buffers.
pub fn copies_have_room()
    ensures { CopiesHaveRoom }
{
    evaluated_is_sound();
    copies_are_within();
}

/// The outcome of a good job has named frames, numbers of 64 bits, a value for each cell, and bytes for each copy buffer.
pub fn runs_are_reportable()
    ensures { RunsAreReportable }
{
    outcomes_are_reportable();
}

/// The outcome that a version of a good host job has on a message has named frames, numbers of 64 bits, a value for each cell, and bytes
/// for each copy buffer.
pub fn replies_are_reportable()
    ensures { RepliesAreReportable }
{
    outcomes_are_reportable();
}

/// The loads of a good job are of words and values of 64 bits, their stretches included where it has a layout.
pub fn loads_are_reportable()
    ensures { LoadsAreReportable }
{}
