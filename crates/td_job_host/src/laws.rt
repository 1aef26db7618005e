//! Laws of host jobs and their faults. They do nothing when they are called.

ghost use Rattle.td_job_host.specs.Laws.{OneHostJobEach, OneHostFaultEach, NeverBothHost, AlwaysOneHost, HostJobsKeepLimits};

use td_front::laws;
use td_front::laws::module_or_refusal;

/// The bytes of a job stand for at most one host job, or have at most one fault, and never both.
pub fn one_answer_each()
    ensures one_job { OneHostJobEach }
    ensures one_fault { OneHostFaultEach }
    ensures never_both { NeverBothHost }
{
    laws::one_answer_each();
}

/// The bytes of a job stand for a host job, or they have a fault.
pub fn job_or_fault()
    ensures { AlwaysOneHost }
{
    module_or_refusal();
}

/// Of each host job the entry point of each version is one of its module's, values fit their parameters, no message is too long, and guests
/// and posts are no more than a job may have.
pub fn jobs_keep_limits()
    ensures { HostJobsKeepLimits }
{}
