//! All that the program does.
ghost use Rattle.std.specs.Prelude.{◌≡◌, ◌≤◌, IfOk};
ghost use Rattle.mosel_run.specs.Answered.{Answered, IsAnswer};
ghost use Rattle.mosel_run.specs.Exact.{ExactUsage, ExactUnread, ExactRefused, ExactReport};
ghost use Rattle.mosel_run.specs.Jobs.{AnyJournal, OneThread};
ghost use Rattle.mosel_run.specs.States.{devices_of, folder_of};
ghost use Rattle.mos_text.specs.declared.folder.Got.TheVariants.{Missing as NotThere, TooLarge as TooLong};
ghost use Rattle.mosel_run.specs.declared.status.Status.TheVariants.{Missing, TooLarge};

use crate::answer::{Answer, usage};
use crate::deliver::deliver;
use crate::run::answer_run;
use crate::status::Status;
use mos_text::{Folder, NoMemory, Sink, Text};
use mos_words::{Command, WordFault, command};
use std::alloc::Global;

/// Does what the words ask for: gets the files that they name from the folder, runs the job, writes
/// one report or one line to the sink, and puts the files of the job into the folder. The first
/// word is the program's name and is not looked at. What each status says stands in
/// `specs/Answered`, and which one comes, by the words and what is known of the files, in
/// `specs/Exact`.
pub fn tool<F: Folder, K: Sink>(
    alloc: Global,
    words: &[Text],
    folder: &mut F,
    sink: &mut K,
) -> Status
    // The answer that the words ask for is delivered, as far as the status says.
    ensures answered { Answered AnyJournal words.now
        (devices_of F.Folder K.Sink folder.old sink.old)
        (devices_of F.Folder K.Sink folder.new sink.new) result }

    // Its journal is the one that a single thread writes.
    ensures one_thread { Answered OneThread words.now
        (devices_of F.Folder K.Sink folder.old sink.old)
        (devices_of F.Folder K.Sink folder.new sink.new) result }

    // By the words and the files alone, where no device fails and memory is there.
    ensures usage { ExactUsage words.now result }
    ensures missing { ExactUnread NotThere Missing words.now (F.content folder.old) result }
    ensures too_large { ExactUnread TooLong TooLarge words.now (F.content folder.old) result }
    ensures refused { ExactRefused words.now (F.content folder.old) result }
    ensures report { ExactReport words.now (F.content folder.old) result }

    ensures folder_faults { F.faults folder.old ≤ F.faults folder.new }
    ensures sink_faults { K.faults sink.old ≤ K.faults sink.new }
{
    perform(alloc, words, folder, sink)
}

fn perform<F: Folder, K: Sink>(
    alloc: Global,
    words: &[Text],
    folder: &mut F,
    sink: &mut K,
) -> Status
    ensures one_thread { Answered OneThread words.now
        (devices_of F.Folder K.Sink folder.old sink.old)
        (devices_of F.Folder K.Sink folder.new sink.new) result }
    ensures folder_faults { F.faults folder.old ≤ F.faults folder.new }
    ensures sink_faults { K.faults sink.old ≤ K.faults sink.new }
{
    match find_answer(alloc, words, folder) {
        Ok(answer) => deliver(alloc, answer, folder, sink),
        Err(_) => Status::NoMemory,
    }
}

/// The answer that the words ask for. Nothing is written or put.
fn find_answer<F: Folder>(alloc: Global, words: &[Text], folder: &mut F) -> Result<Answer, NoMemory>
    ensures answer { IfOk result (IsAnswer OneThread words.now
        (folder_of F.Folder folder.old) (folder_of F.Folder folder.new)) }
    ensures content { F.content folder.new ≡ F.content folder.old }
    ensures later { F.faults folder.old ≤ F.faults folder.new }
{
    match command(alloc, words) {
        Ok(
            Command::Run {
                source,
                lanes,
                budget,
            },
        ) => answer_run(alloc, source, lanes, budget, folder),
        Err(WordFault::Usage) => usage(alloc),
        Err(WordFault::NoMemory) => Err(NoMemory),
    }
}
