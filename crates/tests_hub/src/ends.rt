//! Ends of runs by their words.
use job_calls::End;
use mos_text::FaultKind;

/// The end of a run; `code` is the code of one that says it.
pub fn end_of(word: &str, code: i32) -> End {
    match word {
        "code" => End::Code(code),
        "fault" => End::Fault(FaultKind::Overflow),
        "spent" => End::Spent,
        "stopped" => End::Stopped,
        _ => End::NoMemory,
    }
}
