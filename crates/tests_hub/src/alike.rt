//! A job whose journal is kept twice: by the hub with its indexes, and as a plain list that is gone through for each
//! answer. Both answer random calls, and are to answer alike.
ghost use Rattle.std.specs.Prelude.{◌<◌, ◌^◌, IsTrue, length};
ghost use Rattle.hub_words.specs.Small.{IsSmall};

use crate::random::Random;
use hub_core::{Acted, Held, Hub, answer_of};
use hub_words::Lookups;
use job_calls::{Answer, Call, Entry, Reply};
use mos_text::{FaultKind, NoMemory, let_go};
use std::alloc::Global;

/// The list is so short that its words fit their types.
fn is_small(entries: &Vec<Entry>) -> bool
    ensures { IsTrue result → IsSmall entries.now.items }
{
    match entries.as_slice() {
        [
            Entry {
                call: Call::Open { files, .. },
                ..
            },
            ..
        ] => entries.len() < 100_000 && files.as_slice().len() < 1_000,
        _ => false,
    }
}

/// The text for what the list answers.
fn said_by_list(
    alloc: Global,
    entries: &Vec<Entry>,
    lane: u32,
    run: Option<u32>,
    call: &Call,
) -> Result<String, NoMemory> {
    if !is_small(entries) {
        return Ok(String::new(alloc));
    }
    let answer = answer_of(alloc, entries, lane, run, call)?;
    let said = text_of(alloc, &answer);
    let_go(answer);
    said
}

fn text_of(alloc: Global, answer: &Answer) -> Result<String, NoMemory> {
    match answer {
        Answer::Ready(reply) => Ok(format!(in alloc; "{:?}", reply)?),
        Answer::NotYet => Ok(String::from_str(alloc, "not yet")?),
        Answer::Shut => Ok(String::from_str(alloc, "shut")?),
    }
}

/// The text for what the hub answers.
fn said_by_hub(alloc: Global, answer: &Result<Acted, Held>) -> Result<String, NoMemory> {
    match answer {
        Ok(acted) => Ok(format!(in alloc; "{:?}", acted.reply)?),
        Err(Held::NotYet(_)) => Ok(String::from_str(alloc, "not yet")?),
        Err(Held::Shut(_)) => Ok(String::from_str(alloc, "shut")?),
        Err(Held::NoMemory(_)) => Ok(String::from_str(alloc, "no memory")?),
    }
}

/// The run that the lane holds once its call was answered so.
fn held_after(held: Option<u32>, call: &Call, reply: &Reply) -> Option<u32> {
    match (call, reply) {
        (_, Reply::Claimed { run, .. }) => Some(*run),
        (Call::Finish(_), _) => None,
        _ => held,
    }
}

fn copy_of(alloc: Global, entry: &Entry) -> Result<Entry, NoMemory> {
    let call = entry.call.copy(alloc)?;
    match entry.reply.copy(alloc) {
        Err(_) => {
            let_go(call);
            Err(NoMemory)
        }
        Ok(reply) => Ok(Entry {
            lane: entry.lane,
            run: entry.run,
            call,
            reply,
        }),
    }
}

fn put(entries: &mut Vec<Entry>, entry: Entry) -> Result<(), NoMemory> {
    Ok(entries.push(entry)?)
}

/// The call would have gone over a limit of the journal, of a queue or of runs.
fn is_limit(answer: &Result<Acted, Held>) -> bool {
    match answer {
        Ok(
            Acted {
                reply: Reply::Fault(kind),
                ..
            },
        ) => matches!(
            kind,
            FaultKind::HubFull | FaultKind::QueueFull | FaultKind::TooManyRuns
        ),
        _ => false,
    }
}

/// What is drawn: for so many lanes, from this seed, so many calls; and how many entries and limits are to come of it
/// at least.
#[derive(Clone, Copy)]
pub struct Drawn {
    pub lanes: u32,
    pub seed: u32,
    pub many: u32,
    pub entries: u32,
    pub limits: u32,
}

/// The hub, the list, what each lane holds, what the list last answered, and how many limits were met.
#[derive(Drop)]
struct Pair {
    hub: Hub,
    entries: Vec<Entry>,
    held: Vec<Option<u32>>,
    random: Random,
    said: String,
    limits: u32,
}

impl Pair {
    /// Puts the next entry of the hub behind the list, if there is one.
    fn follow(&mut self, alloc: Global) -> Result<(), NoMemory> {
        let Some(entry) = self.hub.journal().get(self.entries.len()) else {
            return Ok(());
        };
        let copy = copy_of(alloc, entry)?;
        if let Some(held) = self.held.get_mut(copy.lane as usize) {
            *held = held_after(*held, &copy.call, &copy.reply);
        }
        put(&mut self.entries, copy)
    }

    /// The same of all entries that the hub had before.
    fn catch_up(&mut self, alloc: Global) -> Result<(), NoMemory> {
        for _ in 0..self.hub.count() {
            self.follow(alloc)?;
        }
        Ok(())
    }

    fn ask_list(
        &mut self,
        alloc: Global,
        lane: u32,
        run: Option<u32>,
        call: &Call,
    ) -> Result<(), NoMemory> {
        self.said = said_by_list(alloc, &self.entries, lane, run, call)?;
        Ok(())
    }

    /// Run 0 would end by this call.
    fn ends_all(&self, run: Option<u32>, call: &Call) -> bool {
        run == Some(0)
            && (self.said.as_str().starts_with("Fault") || matches!(call, Call::Finish(_)))
    }

    /// Whether the hub says the same of the call as the list.
    fn ask_hub(
        &mut self,
        alloc: Global,
        lane: u32,
        run: Option<u32>,
        call: Call,
    ) -> Result<bool, NoMemory> {
        if !self.hub.fits(lane, run, &call) {
            let_go(call);
            return Ok(false);
        }
        let answer = self.hub.act(lane, run, call);
        let said = said_by_hub(alloc, &answer);
        if is_limit(&answer) {
            self.limits = self.limits.saturating_add(1);
        }
        let_go(answer);
        self.follow(alloc)?;
        Ok(said?.as_str() == self.said.as_str())
    }

    /// Whether both say the same of a call that fits. Run 0 makes no call by which it would end.
    fn answer(
        &mut self,
        alloc: Global,
        lane: u32,
        run: Option<u32>,
        call: Call,
    ) -> Result<bool, NoMemory> {
        if self.ask_list(alloc, lane, run, &call).is_err() {
            let_go(call);
            return Err(NoMemory);
        }
        if self.ends_all(run, &call) {
            let_go(call);
            return Ok(true);
        }
        self.ask_hub(alloc, lane, run, call)
    }

    /// A lane makes a call, if it may; whether both say the same.
    fn turn(&mut self, alloc: Global, lanes: u32) -> Result<bool, NoMemory> {
        let lane = self.random.below(lanes);
        let run = self.held.get(lane as usize).copied().flatten();
        let call = self.random.call(alloc, run.is_some())?;
        if self.entries.fits(lane, run, &call) {
            return self.answer(alloc, lane, run, call);
        }
        let fits = self.hub.fits(lane, run, &call);
        let_go(call);
        Ok(!fits)
    }

    /// Whether both say the same of the random calls, and what is to come of them did.
    fn turns(&mut self, alloc: Global, drawn: Drawn) -> Result<&'static str, NoMemory> {
        self.catch_up(alloc)?;
        for _ in 0..drawn.many {
            if !self.turn(alloc, drawn.lanes)? {
                return Ok("they differ");
            }
        }
        let enough = self.entries.len() >= drawn.entries as usize && self.limits >= drawn.limits;
        Ok(if enough { "alike" } else { "too few" })
    }
}

/// What comes of random calls of this hub's lanes.
pub fn alike(alloc: Global, hub: Hub, drawn: Drawn) -> Result<&'static str, NoMemory> {
    let Ok(held) = vec![in alloc; None; 64] else {
        let_go(hub);
        return Err(NoMemory);
    };
    let mut pair = Pair {
        hub,
        entries: Vec::new(alloc),
        held,
        random: Random(drawn.seed),
        said: String::new(alloc),
        limits: 0,
    };
    let said = pair.turns(alloc, drawn);
    let_go(pair);
    said
}
