//! Laws of reports of hosts. They do nothing when they are called.

ghost use Rattle.td_report_host.specs.Laws.{HostReportsDetermineReplies};

/// Where no field is named `where` or `switch`, equal reports of hosts are of replies with equal guests, numbers, versions and outcomes,
/// and of takes with equal rings, numbers, counts, answers and outcomes, each with loads of which a report says the same.
pub fn host_reports_determine_replies()
    ensures { HostReportsDetermineReplies }
{}
