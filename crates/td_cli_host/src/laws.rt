//! Laws of served inputs and their reports. They do nothing when they are called.

ghost use Rattle.td_cli_host.specs.Laws.{HostReportsDetermineServed, RingsReadOrNot, ServedAreReportable, ServedCanBeShown};

use td_descr::laws::{shape_fits, shape_has_no_buffers, shape_lies_within};
use td_front::laws::{module_or_refusal, modules_are_checked, one_answer_each};
use td_report_facts::laws::{
    host_jobs_are_sized, modules_have_words, outcomes_are_reportable, replies_are_reportable,
};
use td_report_host::laws::host_reports_determine_replies;
use td_stream::laws::some_message_carries;

/// Each reply and each take of an input that was served can be read back from its report: numbers are of 64 bits, frames and cells have
/// names of its version's module, or of the module of descriptors, and a frame's name is none of a report's own words.
pub fn served_are_reportable()
    ensures { ServedAreReportable }
{
    modules_are_checked();
    host_jobs_are_sized();
    modules_have_words();
    replies_are_reportable();
    outcomes_are_reportable();
    shape_fits();
    shape_lies_within();
    shape_has_no_buffers();
    some_message_carries();
}

/// Two served inputs of the same modules by version whose reports are equal have replies with equal guests, numbers, versions and
/// outcomes, and takes with equal rings, numbers, counts, answers and outcomes, each with loads of which a report says the same: what is
/// said of a reply or of a take can be read off the report.
pub fn host_reports_determine_served()
    ensures { HostReportsDetermineServed }
{
    one_answer_each();
    served_are_reportable();
    host_reports_determine_replies();
}

/// Rings are read, or there is no module of descriptors by which they are.
pub fn rings_are_read_or_not()
    ensures { RingsReadOrNot }
{
    module_or_refusal();
    one_answer_each();
}

/// A report can name what was served of a job: the loads of each reply and of each take are of words of its message, and each reply is
/// under one of the job's versions.
pub fn served_can_be_shown()
    ensures { ServedCanBeShown }
{}
