//! The command `run`: its files, its job, and what comes of it.
ghost use Rattle.std.specs.Prelude.{◌≡◌, ◌≤◌, ◌∷◌, [], IfOk, Some, true, length};
ghost use Rattle.bim_code.specs.Limits.{CountsInRange};
ghost use Rattle.bim_code.specs.Tables.{image_bytes};
ghost use Rattle.hub_text.specs.ReportText.{report_text};
ghost use Rattle.mos_words.specs.Fit.{IsWithinLimits};
ghost use Rattle.mos_text.specs.FileName.{is_source_name};
ghost use Rattle.mos_text.specs.Limits.{source_limit};
ghost use Rattle.mos_words.specs.declared.command_line.commands.Command.TheVariants.{Run as RunCommand};
ghost use Rattle.lane_step.specs.Alone.{IsOwnEnd};
ghost use Rattle.mosel_run.specs.Accepted.{IsAccepted, IsOnlyTree};
ghost use Rattle.mosel_run.specs.Jobs.{OneThread};
ghost use Rattle.mosel_run.specs.Making.{IsOneSource, IsStatusAtEnd, listed_file, run_request};
ghost use Rattle.mosel_run.specs.Puts.{image_name};
ghost use Rattle.mosel_run.specs.Run.{IsRunAnswer, IsAnswerTo, IsReport, IsReported};
ghost use Rattle.mosel_run.specs.declared.answer.Deed.TheVariants.{Write, Store};
ghost use Rattle.mosel_run.specs.States.{folder_of};
ghost use Rattle.mos_tree.specs.Sizes.{size_of_tree};

use crate::answer::{Answer, Deed, Put, refusal, unread};
use crate::image::{image_of, name_of_image};
use crate::reader::{ReadFault, read_source};
use crate::status::Status;
use crate::wanted::{Read, Wanted, read_all};
use bim_code::Image;
use bim_format::write_image;
use hub_text::{Report, write_report};
use job_calls::{End, Listed};
use lane_step::{Stepped, run_alone};
use mos_text::{Blob, Folder, NoMemory, SharedBlob, Text};
use mos_tree::Tree;
use sqlite_items::Items;
use std::alloc::Global;

/// The longest source that is read.
const SOURCE_LIMIT: u32 = 1_048_576;

/// The answer of `run` on one source. Nothing is written or put.
pub(crate) fn answer_run<F: Folder>(
    alloc: Global,
    name: Text,
    lanes: u32,
    budget: u32,
    folder: &mut F,
) -> Result<Answer, NoMemory>
    requires { IsWithinLimits (RunCommand name lanes budget) }
    ensures answer { IfOk result (IsRunAnswer OneThread (run_request name lanes budget)
        (folder_of F.Folder folder.old) (folder_of F.Folder folder.new)) }
    ensures content { F.content folder.new ≡ F.content folder.old }
    ensures later { F.faults folder.old ≤ F.faults folder.new }
{
    let wanted = one_wanted(alloc, &name)?;
    match read_all(alloc, wanted.as_slice(), folder)? {
        Read::All(sources) => answer_sources(alloc, &name, lanes, budget, sources.as_slice()),
        Read::Unread { name, lack } => unread(alloc, name, lack),
    }
}

/// The one file that is wanted.
fn one_wanted(alloc: Global, name: &Text) -> Result<Items<Wanted>, NoMemory>
    ensures { IfOk result (λ wanted.
        wanted ≡ record { name = name.now; limit = source_limit } ∷ []) }
{
    let mut wanted = Items::new(alloc);
    wanted.push(Wanted {
        name: name.copy(alloc)?,
        limit: SOURCE_LIMIT,
    })?;
    Ok(wanted)
}

/// The answer by the bytes of the one file.
fn answer_sources(
    alloc: Global,
    name: &Text,
    lanes: u32,
    budget: u32,
    sources: &[Blob],
) -> Result<Answer, NoMemory>
    requires fit { IsWithinLimits (RunCommand name.now lanes budget) }
    requires one { IsOneSource sources.now }
    ensures { IfOk result (IsAnswerTo OneThread (run_request name.now lanes budget) sources.now) }
{
    match sources {
        [source, ..] => answer_source(alloc, name, lanes, budget, source.as_bytes()),
        [] => unreachable!(),
    }
}

/// The answer by the bytes of a source.
fn answer_source(
    alloc: Global,
    name: &Text,
    lanes: u32,
    budget: u32,
    source: &[u8],
) -> Result<Answer, NoMemory>
    requires fit { IsWithinLimits (RunCommand name.now lanes budget) }
    requires small { length source.now ≤ source_limit }
    ensures { IfOk result
        (IsAnswerTo OneThread (run_request name.now lanes budget) (source.now ∷ [])) }
{
    match read_source(alloc, source) {
        Ok(tree) => report(alloc, name, lanes, budget, source, &tree),
        Err(ReadFault::Refused(found)) => refusal(alloc, name, found.line, found.kind),
        Err(ReadFault::NoMemory) => Err(NoMemory),
    }
}

/// The report of a job over this one source, and its image.
fn report(
    alloc: Global,
    name: &Text,
    lanes: u32,
    budget: u32,
    source: &[u8],
    tree: &Tree,
) -> Result<Answer, NoMemory>
    requires fit { IsWithinLimits (RunCommand name.now lanes budget) }
    requires accepted { IsAccepted source.now tree.now }
    requires only { IsOnlyTree source.now tree.now }
    requires not_large { size_of_tree tree.now ≤ source_limit }
    ensures { IfOk result
        (IsReport OneThread (run_request name.now lanes budget) (source.now ∷ [])) }
{
    let image = image_of(alloc, tree)?;
    let files = files(alloc, name, source)?;
    let stepped = run_alone(alloc, &image, lanes, budget, no_params(alloc), files)?;
    let put = put_of_image(alloc, name, image)?;
    let answer = answer_of(alloc, put, stepped)?;
    Ok(answer)
}

/// The empty parameter text.
fn no_params(alloc: Global) -> Text
    ensures { result ≡ [] }
{
    Text::from_string(String::new(alloc))
}

/// The source, as the job lists it.
fn files(alloc: Global, name: &Text, source: &[u8]) -> Result<Items<Listed>, NoMemory>
    ensures { IfOk result (λ files. files ≡ listed_file name.now source.now ∷ []) }
{
    let name = name.copy(alloc)?;
    let bytes = SharedBlob::new(alloc, Blob::new(alloc, source)?)?;
    let mut files = Items::new(alloc);
    files.push(Listed {
        name,
        bytes,
        code: 0,
    })?;
    Ok(files)
}

/// The image as a file to put.
fn put_of_image(alloc: Global, name: &Text, image: Image) -> Result<Put, NoMemory>
    requires fields { CountsInRange image }
    requires source { is_source_name name.now ≡ true }
    ensures { IfOk result (λ put.
        put ≡ record { name = image_name name.now; bytes = image_bytes image }) }
{
    let name = name_of_image(alloc, name)?;
    let bytes = write_image(alloc, &image)?;
    Ok(Put { name, bytes })
}

/// The answer with the report of a job that came to its end.
fn answer_of(alloc: Global, put: Put, stepped: Stepped) -> Result<Answer, NoMemory>
    requires { IsOwnEnd stepped.end }
    ensures deeds { IfOk result (λ answer.
        answer.deeds ≡ Write (report_text stepped.journal stepped.lines) ∷ Store put ∷ []) }
    ensures status { IfOk result (λ answer. IsStatusAtEnd (Some stepped.end) answer.status) }
    ensures reported { IfOk result (λ answer. IsReported answer.status) }
{
    let report = Report {
        runs: stepped.lines,
        entries: stepped.journal,
    };
    let text = write_report(alloc, &report)?;
    let mut deeds = Items::new(alloc);
    deeds.push(Deed::Write(text))?;
    deeds.push(Deed::Store(put))?;
    let status = status_of(stepped.end);
    Ok(Answer { deeds, status })
}

/// The status of a job whose run 0 ended so.
fn status_of(end: End) -> Status
    requires { IsOwnEnd end }
    ensures by_end { IsStatusAtEnd (Some end) result }
    ensures reported { IsReported result }
{
    match end {
        End::Code(code) => {
            if code == 0 {
                return Status::Done;
            }
            Status::MasterFailed
        }
        End::Fault(_) => Status::MasterFailed,
        End::Spent => Status::MasterSpent,
        End::Stopped | End::NoMemory => unreachable!(),
    }
}
