//! Laws of jobs and their faults. They do nothing when they are called.

ghost use Rattle.td_job.specs.Laws.{OneJobEach, OneFaultEach, NeverBoth, AlwaysOne, OneNamedJobEach, OneNamedFaultEach, NeverBothNamed, AlwaysOneNamed, GivenByBytes};

/// The bytes of a job stand for at most one run job, or have at most one fault, and never both.
pub fn one_answer_each()
    ensures one_job { OneJobEach }
    ensures one_fault { OneFaultEach }
    ensures never_both { NeverBoth }
{}

/// The bytes of a job stand for a run job, or they have a fault.
pub fn job_or_fault()
    ensures { AlwaysOne }
{}

/// A job that names its entry point is at most one run job of a module, or has at most one first fault, and never both.
pub fn one_named_answer_each()
    ensures one_job { OneNamedJobEach }
    ensures one_fault { OneNamedFaultEach }
    ensures never_both { NeverBothNamed }
{}

/// A job that names its entry point is a run job of a module, or it has a first fault.
pub fn named_job_or_fault()
    ensures { AlwaysOneNamed }
{}

/// What a job without a value says of its message is what its bytes, its length and its stretches say.
pub fn given_by_bytes()
    ensures { GivenByBytes }
{}
