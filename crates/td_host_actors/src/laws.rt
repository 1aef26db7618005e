//! Laws of replies. They do nothing when they are called.

ghost use Rattle.td_host_actors.specs.Replies.{OneVersion};

/// A job without swaps has one version: each reply is under it, and so is the meaning of the job's one module.
pub fn jobs_without_swaps_have_one_version()
    ensures { OneVersion }
{}
