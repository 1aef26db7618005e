//! The law of runs.

ghost use Rattle.td_fetch.specs.Runs.{RunsAreOne};

/// Two runs of one entry point on one memory have the same loads, and on each message that carries them the module says
/// the same.
pub fn runs_are_one()
    ensures { RunsAreOne }
{}
