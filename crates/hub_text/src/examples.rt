//! Worked examples of the texts that the program writes: functions that do nothing, whose contracts
//! are the examples.
ghost use Rattle.hub_text.specs.ReportExamples.{CallTexts, ErrorLineTexts, HelloReport, ReplyTexts};

/// The report of one run that writes hello, on one lane.
pub fn hello_report()
    ensures { HelloReport }
{}

/// Some calls with what is written of them.
pub fn call_texts()
    ensures { CallTexts }
{}

/// Some replies with what is written of them.
pub fn reply_texts()
    ensures { ReplyTexts }
{}

/// The lines that stand in place of a report.
pub fn error_lines()
    ensures { ErrorLineTexts }
{}
