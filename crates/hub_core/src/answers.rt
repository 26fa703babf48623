//! The hub's answer to a call: one function for each row of the table, and the rules before it. What
//! they ask of the journal they look up.
ghost use Rattle.std.specs.Prelude.{◌≡◌, ℕ, false, ◌+◌, not, None, is_some, nat_lt, IfOk, IsOk, IsTrue};
ghost use Rattle.job_calls.specs.Answers as answers;
ghost use Rattle.job_calls.specs.Models as models;
ghost use Rattle.job_calls.specs.Events as events;
ghost use Rattle.job_calls.specs.Entries.{is_claim};
ghost use Rattle.job_calls.specs.declared.call.Call.TheVariants.{Claim, PipeOpen};
ghost use Rattle.job_calls.specs.declared.reply.Answer.TheVariants.{Ready};
ghost use Rattle.job_calls.specs.declared.reply.Reply.TheVariants.{Flag, Found};
ghost use Rattle.job_calls.specs.Files.{data_of};
ghost use Rattle.job_calls.specs.Pipes.{session};
ghost use Rattle.hub_words.specs.Small.{IsSmall};
ghost use Rattle.hub_core.specs.Room.{takes_no_memory};
ghost use Rattle.hub_core.specs.Rows.{answer_with_run, answer_to_read};

use crate::turn::{Turn, turn_of};
use hub_words::{Lookups, exit_code};
use job_calls::{Answer, Call, End, Reply, Way};
use mos_text::{Blob, FaultKind, NoMemory, Place, SharedBlob, Text};
use std::alloc::Global;

fn fault(kind: FaultKind) -> Answer
    ensures { result ≡ answers.fault kind }
{
    Answer::Ready(Reply::Fault(kind))
}

fn acknowledge() -> Answer
    ensures { result ≡ answers.acknowledge }
{
    Answer::Ready(Reply::Unit)
}

/// The lane is given this run.
fn give_run<J: Lookups>(alloc: Global, journal: &J, run_number: u32) -> Result<Answer, NoMemory>
    ensures { IfOk result (λ answer. answer ≡ answer_with_run run_number (J.list journal.now)) }
{
    let Some(source) = journal.source_of(run_number) else {
        return Ok(Answer::NotYet);
    };
    match journal.params_of(run_number) {
        None => Ok(Answer::NotYet),
        Some(params) => Ok(Answer::Ready(Reply::Claimed {
            run: run_number,
            source,
            params: params.copy(alloc)?,
        })),
    }
}

fn claim_answer<J: Lookups>(alloc: Global, journal: &J, lane: u32) -> Result<Answer, NoMemory>
    requires { IsSmall (J.list journal.now) }
    ensures { IfOk result (λ answer. answer ≡ answers.answer_of (J.list journal.now) lane None Claim) }
{
    match turn_of(journal, lane) {
        Turn::Gives(run) => give_run(alloc, journal, run),
        Turn::Done => Ok(Answer::Ready(Reply::Done)),
        Turn::NotYet => Ok(Answer::NotYet),
        Turn::Shut => Ok(Answer::Shut),
    }
}

fn load_answer<J: Lookups>(journal: &J, file: &Text) -> Answer
    requires { IsSmall (J.list journal.now) }
    ensures { result ≡ answers.load_answer (J.list journal.now) (models.image_source file.now (J.list journal.now)) }
{
    match journal.image_source(file) {
        None => fault(FaultKind::NoImage),
        Some(source) => Answer::Ready(Reply::Loaded {
            model: 1 + journal.loaded_count(),
            source,
        }),
    }
}

/// There is such a run, and it is live.
fn is_live_run<J: Lookups>(run: Option<u32>, journal: &J) -> bool
    requires { IsSmall (J.list journal.now) }
    ensures { result ≡ models.is_live_run run (J.list journal.now) }
{
    match run {
        None => false,
        Some(run_number) => journal.is_live(run_number),
    }
}

fn run_answer<J: Lookups>(journal: &J, model: u32) -> Answer
    requires { IsSmall (J.list journal.now) }
    ensures { result ≡ answers.run_answer (J.list journal.now) model }
{
    if !journal.is_loaded(model) {
        return fault(FaultKind::NotLoaded);
    }
    if is_live_run(journal.current_run(model), journal) {
        return fault(FaultKind::Busy);
    }
    let run = journal.run_count();
    if run >= 4096 {
        return fault(FaultKind::TooManyRuns);
    }
    if journal.live_count() >= journal.lanes() as usize {
        return fault(FaultKind::NoLane);
    }
    Answer::Ready(Reply::Started { run })
}

fn wait_answer<J: Lookups>(journal: &J, run: u32) -> Answer
    requires { IsSmall (J.list journal.now) }
    ensures { result ≡ answers.wait_answer (events.first_event run (J.list journal.now)) }
{
    match journal.first_event(run) {
        None => Answer::NotYet,
        Some(_) => acknowledge(),
    }
}

fn take_answer<J: Lookups>(journal: &J, run: u32) -> Answer
    requires { IsSmall (J.list journal.now) }
    ensures { result ≡ answers.take_answer (events.front run (J.list journal.now)) }
{
    match journal.front(run) {
        None => Answer::Ready(Reply::Nothing),
        Some(event) => Answer::Ready(Reply::Took {
            place: Place(event.place),
            class: event.class,
            value: event.value,
        }),
    }
}

fn peek_answer<J: Lookups>(journal: &J, run: u32) -> Answer
    requires { IsSmall (J.list journal.now) }
    ensures { result ≡ answers.peek_answer (events.front run (J.list journal.now)) }
{
    match journal.front(run) {
        None => Answer::Ready(Reply::Nothing),
        Some(event) => Answer::Ready(Reply::Seen {
            place: Place(event.place),
            class: event.class,
            value: event.value,
        }),
    }
}

fn is_empty_answer<J: Lookups>(journal: &J, run: u32) -> Answer
    requires { IsSmall (J.list journal.now) }
    ensures { result ≡ Ready (Flag (not (is_some (events.first_event run (J.list journal.now))))) }
{
    Answer::Ready(Reply::Flag(journal.first_event(run).is_none()))
}

/// The run that an event is sent to.
fn target<J: Lookups>(journal: &J, run: u32, to: Option<u32>) -> Option<u32>
    ensures { result ≡ answers.target (J.list journal.now) run to }
{
    match to {
        None => journal.parent_of(run),
        Some(model) => journal.current_run(model),
    }
}

fn send_answer<J: Lookups>(journal: &J, to: Option<u32>) -> Answer
    requires { IsSmall (J.list journal.now) }
    ensures { result ≡ answers.send_answer (J.list journal.now) to }
{
    let Some(run) = to else {
        return Answer::Ready(Reply::Lost);
    };
    if !journal.is_live(run) {
        return Answer::Ready(Reply::Lost);
    }
    if journal.queue_length(run) > 65_535 {
        return fault(FaultKind::QueueFull);
    }
    Answer::Ready(Reply::Queued { run })
}

fn end_status(end: End) -> i32
    ensures { result ≡ models.end_status end }
{
    match end {
        End::Code(_) => 3,
        End::Fault(_) => 4,
        End::Spent => 5,
        End::Stopped => 6,
        End::NoMemory => 7,
    }
}

fn run_status<J: Lookups>(journal: &J, run_number: u32) -> i32
    ensures { result ≡ models.run_status run_number (J.list journal.now) }
{
    match journal.finish_of(run_number) {
        None => 2,
        Some(end) => end_status(end),
    }
}

fn status_of<J: Lookups>(journal: &J, model: u32) -> i32
    ensures { result ≡ models.status_of model (J.list journal.now) }
{
    if !journal.is_loaded(model) {
        return 0;
    }
    match journal.current_run(model) {
        None => 1,
        Some(run_number) => run_status(journal, run_number),
    }
}

/// The exit code of the model's current run.
fn exit_of<J: Lookups>(journal: &J, model: u32) -> i32
    ensures { result ≡ models.exit_of model (J.list journal.now) }
{
    match journal.current_run(model) {
        None => 0,
        Some(run_number) => match journal.finish_of(run_number) {
            None => 0,
            Some(end) => exit_code(end),
        },
    }
}

fn unload_answer<J: Lookups>(journal: &J, model: u32) -> Answer
    requires { IsSmall (J.list journal.now) }
    ensures { result ≡ answers.unload_answer (J.list journal.now) model }
{
    if is_live_run(journal.current_run(model), journal) {
        return fault(FaultKind::Busy);
    }
    acknowledge()
}

/// What was read, from the entry at this place; place 0 for a listed file.
fn found(place: u32, bytes: &SharedBlob) -> Result<Answer, NoMemory>
    ensures { IfOk result (λ answer. answer ≡ Ready (Found (record { 0 = place }) bytes.now)) }
{
    Ok(Answer::Ready(Reply::Found {
        place: Place(place),
        bytes: bytes.share()?,
    }))
}

/// What was listed under the name.
fn data_answer<J: Lookups>(journal: &J, name: &Text) -> Result<Answer, NoMemory>
    ensures { IfOk result (λ answer. answer ≡ answers.read_answer None (data_of name.now (J.list journal.now))) }
{
    match journal.data_of(name) {
        None => Ok(fault(FaultKind::NoFile)),
        Some(bytes) => found(0, bytes),
    }
}

fn read_answer<J: Lookups>(journal: &J, name: &Text) -> Result<Answer, NoMemory>
    requires { IsSmall (J.list journal.now) }
    ensures { IfOk result (λ answer. answer ≡ answer_to_read name.now (J.list journal.now)) }
{
    match journal.last_written(name) {
        Some((place, bytes)) => found(place, bytes),
        None => data_answer(journal, name),
    }
}

fn reader_answer<J: Lookups>(journal: &J, name: &Text) -> Answer
    requires { IsSmall (J.list journal.now) }
    ensures { result ≡ answers.reader_answer (J.list journal.now) name.now }
{
    if journal.holder(Way::Reads, name).is_some() {
        return fault(FaultKind::PipeBusy);
    }
    Answer::Ready(Reply::Session {
        place: Place(journal.count() as u32),
    })
}

fn join_answer<J: Lookups>(journal: &J, name: &Text) -> Answer
    requires { IsSmall (J.list journal.now) }
    ensures { result ≡ answers.join_answer (session name.now (J.list journal.now)) }
{
    match journal.session(name) {
        None => Answer::NotYet,
        Some(place) => Answer::Ready(Reply::Session {
            place: Place(place),
        }),
    }
}

fn writer_answer<J: Lookups>(journal: &J, name: &Text) -> Answer
    requires { IsSmall (J.list journal.now) }
    ensures { result ≡ answers.writer_answer (J.list journal.now) name.now }
{
    if journal.holder(Way::Writes, name).is_some() {
        return fault(FaultKind::PipeBusy);
    }
    if journal.holder(Way::Reads, name).is_none() {
        return Answer::NotYet;
    }
    if journal.had_writer(name) {
        return Answer::NotYet;
    }
    join_answer(journal, name)
}

fn open_answer<J: Lookups>(journal: &J, name: &Text, way: Way) -> Answer
    requires { IsSmall (J.list journal.now) }
    ensures { (run : ℕ) → result ≡ answers.table_answer (J.list journal.now) run (PipeOpen name.now way) }
{
    match way {
        Way::Reads => reader_answer(journal, name),
        Way::Writes => writer_answer(journal, name),
    }
}

fn put_answer<J: Lookups>(
    alloc: Global,
    journal: &J,
    name: &Text,
    bytes: &Blob,
) -> Result<Answer, NoMemory>
    ensures { IfOk result (λ answer. answer ≡ answers.put_answer (J.list journal.now) name.now bytes.now) }
{
    if !journal.is_joined(name) {
        return Ok(fault(FaultKind::Broken));
    }
    let untaken = journal.untaken(alloc, name)?;
    if has_room(untaken.len(), bytes.as_bytes().len()) {
        return Ok(acknowledge());
    }
    Ok(Answer::NotYet)
}

/// So many bytes more, beside these, are at most 4,096.
fn has_room(untaken: usize, more: usize) -> bool
    ensures { result ≡ not (nat_lt 4096 (untaken + more)) }
{
    untaken <= 4096 && more <= 4096 - untaken
}

fn pipe_answer<J: Lookups>(alloc: Global, journal: &J, name: &Text) -> Result<Answer, NoMemory>
    ensures { IfOk result (λ answer. answer ≡ answers.pipe_answer (J.list journal.now) name.now) }
{
    let untaken = journal.untaken(alloc, name)?;
    if untaken.len() > 0 {
        return Ok(Answer::Ready(Reply::Bytes(Blob::from_vec(untaken))));
    }
    if journal.is_ended(name) {
        return Ok(Answer::Ready(Reply::PipeEnd));
    }
    Ok(Answer::NotYet)
}

/// What a run is answered that goes on, while the journal has room.
fn table_answer<J: Lookups>(
    alloc: Global,
    journal: &J,
    run: u32,
    call: &Call,
) -> Result<Answer, NoMemory>
    requires { IsSmall (J.list journal.now) }
    ensures answer { IfOk result (λ answer. answer ≡ answers.table_answer (J.list journal.now) run call.now) }
    ensures room { IsTrue (takes_no_memory call.now) → IsOk result }
{
    match call {
        Call::Compile { src, .. } => Ok(Answer::Ready(Reply::Code(journal.code_of(src)))),
        Call::Load { file } => Ok(load_answer(journal, file)),
        Call::Run { model, .. } => Ok(run_answer(journal, *model)),
        Call::Wait => Ok(wait_answer(journal, run)),
        Call::Next => Ok(take_answer(journal, run)),
        Call::Drop => Ok(take_answer(journal, run)),
        Call::Peek => Ok(peek_answer(journal, run)),
        Call::IsEmpty => Ok(is_empty_answer(journal, run)),
        Call::Send { to, .. } => Ok(send_answer(journal, target(journal, run, *to))),
        Call::Status { model } => Ok(Answer::Ready(Reply::Number(status_of(journal, *model)))),
        Call::ExitCode { model } => Ok(Answer::Ready(Reply::Number(exit_of(journal, *model)))),
        Call::Stop { .. } => Ok(acknowledge()),
        Call::Unload { model } => Ok(unload_answer(journal, *model)),
        Call::Read { name } => read_answer(journal, name),
        Call::Write { .. } => Ok(acknowledge()),
        Call::PipeOpen { name, way } => Ok(open_answer(journal, name, *way)),
        Call::PipePut { name, bytes } => put_answer(alloc, journal, name, bytes),
        Call::PipeTake { name } => pipe_answer(alloc, journal, name),
        Call::PipeClose { .. } => Ok(acknowledge()),
        Call::Open { .. } => Ok(Answer::NotYet),
        Call::Claim => Ok(Answer::NotYet),
        Call::Quit => Ok(Answer::NotYet),
        Call::Finish(_) => Ok(Answer::NotYet),
    }
}

/// What is answered to a call of a run.
fn answer_to_run<J: Lookups>(
    alloc: Global,
    journal: &J,
    run: Option<u32>,
    call: &Call,
) -> Result<Answer, NoMemory>
    requires { IsSmall (J.list journal.now) }
    ensures answer { IfOk result (λ answer. answer ≡ answers.answer_to_run (J.list journal.now) run call.now) }
    ensures room { IsTrue (takes_no_memory call.now) → IsOk result }
{
    let Some(run) = run else {
        return Ok(Answer::NotYet);
    };
    if journal.is_asked(run) {
        return Ok(Answer::Ready(Reply::Halt));
    }
    if journal.is_full(call) {
        return Ok(fault(FaultKind::HubFull));
    }
    table_answer(alloc, journal, run, call)
}

/// The answer to a call, by what is looked up in the journal. The hub asks its indexes; a journal as a plain
/// list is gone through.
pub fn answer_of<J: Lookups>(
    alloc: Global,
    journal: &J,
    lane: u32,
    run: Option<u32>,
    call: &Call,
) -> Result<Answer, NoMemory>
    requires { IsSmall (J.list journal.now) }
    ensures answer { IfOk result (λ answer. answer ≡ answers.answer_of (J.list journal.now) lane run call.now) }
    ensures room { is_claim call.now ≡ false → IsTrue (takes_no_memory call.now) → IsOk result }
{
    if journal.has_quit() {
        return Ok(Answer::Shut);
    }
    match call {
        Call::Open { .. } => Ok(Answer::Ready(Reply::Opened)),
        Call::Quit => Ok(acknowledge()),
        Call::Finish(_) => Ok(acknowledge()),
        Call::Claim => claim_answer(alloc, journal, lane),
        _ => answer_to_run(alloc, journal, run, call),
    }
}
