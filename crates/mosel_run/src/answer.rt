//! What a command has to answer.
ghost use Rattle.std.specs.Prelude.{◌≡◌, IfOk};
ghost use Rattle.hub_text.specs.ErrorLines.{usage_line, verdict_line};
ghost use Rattle.mosel_run.specs.Answers.{line_answer};
ghost use Rattle.mosel_run.specs.Reading.{AnswersLack};
ghost use Rattle.mosel_run.specs.declared.status.Status.TheVariants.{Usage, Refused};

use crate::status::Status;
use crate::wanted::Lack;
use hub_text::{write_missing, write_read_fault, write_too_large, write_usage, write_verdict};
use mos_text::{Blob, Kind, NoMemory, Text};
use sqlite_items::Items;
use std::alloc::Global;

/// A file to be put: its name and its bytes.
#[derive(Debug, Drop)]
pub struct Put {
    pub name: Text,
    pub bytes: Blob,
}

/// One thing to be done with the devices.
#[derive(Debug, Drop)]
pub enum Deed {
    /// This text is written to the sink.
    Write(Blob),
    /// This file is put into the folder.
    Store(Put),
}

/// What is to be done, in order; and the status, where all of it is done.
#[derive(Debug, Drop)]
pub struct Answer {
    pub deeds: Items<Deed>,
    pub status: Status,
}

/// One line, and nothing to put.
fn line_answer(alloc: Global, text: Blob, status: Status) -> Result<Answer, NoMemory>
    ensures { IfOk result (λ answer. answer ≡ line_answer text status) }
{
    let mut deeds = Items::new(alloc);
    deeds.push(Deed::Write(text))?;
    Ok(Answer { deeds, status })
}

/// The answer to words that are no command.
pub(crate) fn usage(alloc: Global) -> Result<Answer, NoMemory>
    ensures { IfOk result (λ answer. answer ≡ line_answer usage_line Usage) }
{
    let text = write_usage(alloc)?;
    line_answer(alloc, text, Status::Usage)
}

/// The answer to a source that is refused.
pub(crate) fn refusal(alloc: Global, name: &Text, line: u32, kind: Kind) -> Result<Answer, NoMemory>
    ensures { IfOk result (λ answer.
        answer ≡ line_answer (verdict_line name.now line kind) (Refused line kind)) }
{
    let text = write_verdict(alloc, name, line, &kind)?;
    line_answer(alloc, text, Status::Refused { line, kind })
}

/// The answer to a file that the folder did not give.
pub(crate) fn unread(alloc: Global, name: Text, lack: Lack) -> Result<Answer, NoMemory>
    ensures { IfOk result (λ answer. AnswersLack name lack answer) }
{
    match lack {
        Lack::Missing => {
            let text = write_missing(alloc, &name)?;
            line_answer(alloc, text, Status::Missing { name })
        }
        Lack::TooLarge => {
            let text = write_too_large(alloc, &name)?;
            line_answer(alloc, text, Status::TooLarge { name })
        }
        Lack::Failed => {
            let text = write_read_fault(alloc, &name)?;
            line_answer(alloc, text, Status::FolderFault { name })
        }
    }
}
