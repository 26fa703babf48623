//! A job: how it is opened, and what its hub answers.
use crate::alike::{Drawn, alike};
use crate::call_words::{byte, call_of, number, signed, some_number, text};
use crate::ends::end_of;
use crate::many::{runs, times};
use crate::ways::{end, give, insist};
use hub_core::{Acted, Held, Hub, can_open};
use job_calls::{Call, Listed};
use mos_text::{Blob, NoMemory, SharedBlob, Text, let_go};
use sqlite_items::Items;
use std::alloc::Global;
use std::mem::replace;

/// A text of its own for the words.
pub fn words(alloc: Global, words: &str) -> Result<String, NoMemory> {
    Ok(String::from_str(alloc, words)?)
}

/// A listed file by its name and code, as `m.mos:0`; its bytes are always the same four.
fn file(alloc: Global, word: &str) -> Result<Listed, NoMemory> {
    let (name, code) = word.split_once(':').unwrap_or((word, ""));
    Ok(Listed {
        name: text(alloc, name)?,
        bytes: SharedBlob::new(alloc, Blob::new(alloc, b"x: 1")?)?,
        code: byte(code),
    })
}

fn files(alloc: Global, words: &[&str]) -> Result<Items<Listed>, NoMemory> {
    let mut files = Items::new(alloc);
    for word in words {
        files.push(file(alloc, word)?)?;
    }
    Ok(files)
}

/// The job's hub, where the job may be opened so.
fn hub(
    alloc: Global,
    lanes: u32,
    budget: u32,
    files: Items<Listed>,
) -> Result<Option<Hub>, NoMemory> {
    if !can_open(lanes, budget, files.as_slice()) {
        return Ok(None);
    }
    Ok(Some(Hub::new(alloc, lanes, budget, text(alloc, "")?, files)?))
}

/// The word for a call that was handed back.
fn word_of(held: &Held) -> &'static str {
    match held {
        Held::NotYet(_) => "not yet",
        Held::Shut(_) => "shut",
        Held::NoMemory(_) => "no memory",
    }
}

/// The text for what the hub answered.
pub fn answered(alloc: Global, answer: &Result<Acted, Held>) -> Result<String, NoMemory> {
    match answer {
        Ok(acted) => Ok(format!(in alloc; "{:?}", acted.reply)?),
        Err(held) => words(alloc, word_of(held)),
    }
}

/// What the hub answers to the call.
pub fn ask(
    alloc: Global,
    hub: &mut Hub,
    lane: u32,
    run: Option<u32>,
    call: Call,
) -> Result<String, NoMemory> {
    if !hub.fits(lane, run, &call) {
        let_go(call);
        return words(alloc, "unfit");
    }
    let answer = hub.act(lane, run, call);
    let said = answered(alloc, &answer);
    let_go(answer);
    said
}

/// The same of the call that the words say.
pub fn ask_words(
    alloc: Global,
    hub: &mut Hub,
    lane: u32,
    run: Option<u32>,
    call: &[&str],
) -> Result<String, NoMemory> {
    let call = call_of(alloc, call)?;
    ask(alloc, hub, lane, run, call)
}

fn entries(alloc: Global, hub: &Hub) -> Result<String, NoMemory> {
    Ok(format!(in alloc; "{}", hub.journal().len())?)
}

/// Whether room could be made, and is then there.
fn room(hub: &mut Hub, many: u32) -> &'static str {
    match hub.reserve_entries(many) {
        Ok(()) => if hub.spare_entries() >= many as usize {
            "room"
        } else {
            "no room"
        },
        Err(_) => "no memory",
    }
}

/// What is answered of the hub itself, or to the call of a lane.
fn of_hub(alloc: Global, hub: &mut Hub, line: &[&str]) -> Result<String, NoMemory> {
    match line {
        ["entries"] => entries(alloc, hub),
        ["room", many] => words(alloc, room(hub, number(many))),
        ["times", many, lane, run, call @ ..] => times(
            alloc,
            hub,
            number(many),
            number(lane),
            some_number(run),
            call,
        ),
        ["runs", first, last] => runs(alloc, hub, number(first), number(last)),
        ["give", lane] => give(alloc, hub, number(lane)),
        ["end", lane, run, word, code] => end(
            alloc,
            hub,
            number(lane),
            number(run),
            end_of(word, signed(code)),
        ),
        ["insist", lane, run, call @ ..] => insist(
            alloc,
            hub,
            number(lane),
            some_number(run),
            call,
        ),
        [lane, run, call @ ..] => ask_words(alloc, hub, number(lane), some_number(run), call),
        _ => words(alloc, "no call"),
    }
}

/// What is answered to a line: of a job, whether it can be opened.
pub fn answer(alloc: Global, hub: &mut Option<Hub>, line: &[&str]) -> Result<String, NoMemory> {
    match line {
        ["job", lanes, budget, files @ ..] => open(
            alloc,
            hub,
            number(lanes),
            number(budget),
            files,
        ),
        ["alike", lanes, seed, many, entries] => compare(
            alloc,
            None,
            Drawn {
                lanes: number(lanes),
                seed: number(seed),
                many: number(many),
                entries: number(entries),
                limits: 0,
            },
        ),
        ["go_on", lanes, seed, many, limits] => compare(
            alloc,
            hub.take(),
            Drawn {
                lanes: number(lanes),
                seed: number(seed),
                many: number(many),
                entries: 0,
                limits: number(limits),
            },
        ),
        _ => match hub {
            None => words(alloc, "no job"),
            Some(hub) => of_hub(alloc, hub, line),
        },
    }
}

fn open(
    alloc: Global,
    job: &mut Option<Hub>,
    lanes: u32,
    budget: u32,
    names: &[&str],
) -> Result<String, NoMemory> {
    let new = hub(alloc, lanes, budget, files(alloc, names)?)?;
    let said = if new.is_some() { "opened" } else { "refused" };
    let_go(replace(job, new));
    words(alloc, said)
}

/// A new job of so many lanes, for random calls.
fn new_job(alloc: Global, lanes: u32) -> Result<Option<Hub>, NoMemory> {
    hub(
        alloc,
        lanes,
        100,
        files(alloc, &["m.mos:0", "c.mos:0", "d.dat:0"])?,
    )
}

/// What comes of random calls in this job.
fn drawn_in(alloc: Global, hub: Hub, drawn: Drawn) -> Result<String, NoMemory> {
    words(alloc, alike(alloc, hub, drawn)?)
}

/// The same, or in a new one.
fn compare(alloc: Global, job: Option<Hub>, drawn: Drawn) -> Result<String, NoMemory> {
    match job {
        Some(hub) => drawn_in(alloc, hub, drawn),
        None => match new_job(alloc, drawn.lanes)? {
            Some(hub) => drawn_in(alloc, hub, drawn),
            None => words(alloc, "refused"),
        },
    }
}
