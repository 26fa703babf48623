//! The hub, tried line by line: each line of standard input opens a job or is a call of a lane, and
//! is printed with what is answered. Empty lines and those that begin with '#' are printed as they
//! are.
#![tactic(auto)]

mod alike;
mod call_words;
mod ends;
mod job;
mod many;
mod random;
mod ways;

use hub_core::Hub;
use mos_text::{NoMemory, let_go};
use std::alloc::Global;
use std::io::{self, BufRead, BufReader, ErrorKind, Input, Print};

/// The line with what is answered to it, if it asks anything.
fn answer(alloc: Global, hub: &mut Option<Hub>, line: &str) -> Result<String, NoMemory> {
    let words: Vec<&str> = line.split_whitespace().collect(alloc)?;
    if words.is_empty() || line.starts_with("#") {
        return Ok(String::from_str(alloc, line)?);
    }
    let answer = job::answer(alloc, hub, &words)?;
    Ok(format!(in alloc; "{line} -> {}", answer.as_str())?)
}

/// The same for a program's end.
fn said(alloc: Global, hub: &mut Option<Hub>, line: &str) -> io::Result<String> {
    match answer(alloc, hub, line) {
        Ok(said) => Ok(said),
        Err(NoMemory) => Err(ErrorKind::OutOfMemory.into()),
    }
}

/// Prints each line so.
fn answer_all(rt: &(impl Print + Input), alloc: Global, hub: &mut Option<Hub>) -> io::Result<()> {
    for line in BufReader::new(alloc, rt.reader())?.lines(alloc) {
        let said = said(alloc, hub, line?.as_str())?;
        println!(rt; "{}", said.as_str())?;
    }
    Ok(())
}

fn main(rt: HostRuntime) -> io::Result<()> {
    let alloc = rt.alloc();
    let mut hub = None;
    let ended = answer_all(&rt, alloc, &mut hub);
    let_go(hub);
    ended
}
