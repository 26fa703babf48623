//! One call many times, and many runs one after the other.
use crate::job::ask_words;
use hub_core::Hub;
use mos_text::NoMemory;
use std::alloc::Global;

/// What is answered to the last of so many calls, which are all alike.
pub fn times(
    alloc: Global,
    hub: &mut Hub,
    many: u32,
    lane: u32,
    run: Option<u32>,
    words: &[&str],
) -> Result<String, NoMemory> {
    let mut answer = ask_words(alloc, hub, lane, run, words)?;
    for _ in 1..many {
        answer = ask_words(alloc, hub, lane, run, words)?;
    }
    Ok(answer)
}

/// Run 0 on lane 0 starts the run of this number, of model 1; lane 1 claims it, and it ends. What is answered to the
/// start.
fn child(alloc: Global, hub: &mut Hub, run: u32) -> Result<String, NoMemory> {
    let answer = ask_words(alloc, hub, 0, Some(0), &["run", "1", "x"])?;
    ask_words(alloc, hub, 1, None, &["claim"])?;
    ask_words(alloc, hub, 1, Some(run), &["finish", "code", "0"])?;
    Ok(answer)
}

/// The same of the runs of these numbers. What is answered to the last start.
pub fn runs(alloc: Global, hub: &mut Hub, first: u32, last: u32) -> Result<String, NoMemory> {
    let mut answer = String::new(alloc);
    for run in first..=last {
        answer = child(alloc, hub, run)?;
    }
    Ok(answer)
}
