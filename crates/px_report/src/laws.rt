ghost use Rattle.px_report.specs.Laws.{FormsAgree};

/// The JSON of a report says all that its text says.
pub fn forms_agree()
    ensures { FormsAgree }
{}
