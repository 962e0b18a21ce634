//! What holds of the form of a report, as functions whose contracts are the laws.

ghost use Rattle.samr_verify.specs.Form.{ReportsAreAccepted, AcceptedAreReports, LinesCanGoOn, ReportsAreFormed};

/// The law that each report is accepted line by line.
pub fn reports_are_accepted()
    ensures { ReportsAreAccepted }
{}

/// The law that what is accepted line by line is the lines of a report.
pub fn accepted_are_reports()
    ensures { AcceptedAreReports }
{}

/// The law that from each place to which accepted lines lead there are lines to the end.
pub fn lines_can_go_on()
    ensures { LinesCanGoOn }
{}

/// The law that a report has no fault of form.
pub fn reports_are_formed()
    ensures { ReportsAreFormed }
{}
