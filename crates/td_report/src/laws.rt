//! Laws of reports. They do nothing when they are called.

ghost use Rattle.td_report.specs.Laws.{ReportsDetermineParts, ReportsDetermineOutcomes, ShownLoadsAreOne};

/// Equal reports of one module are of equal verdicts, of frames and loads of which a report says the same, and of equal
/// cells.
pub fn reports_determine_parts()
    ensures { ReportsDetermineParts }
{}

/// Where no field is named `where` or `switch`, equal reports are of equal verdicts, traces and cells, and of loads of which a
/// report says the same.
pub fn reports_determine_outcomes()
    ensures { ReportsDetermineOutcomes }
{}

/// Loads over one layout, or without any, of which a report says the same are equal.
pub fn shown_loads_are_one()
    ensures { ShownLoadsAreOne }
{}
