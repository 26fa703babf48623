//! The tests of images as bytes, a line each; `tests_lines` says how bytes are written. `b:BYTES`: the bytes are read; how many
//! entries each table has and how many instructions there are, or the kind of the fault and its place. `v:BYTES`: they are read and
//! verified. `d:BYTES`: the code of the verified image is listed, or the fault is told by its number. `x:BYTES`: each bit of them is turned, one at a time, and all that are got are read and verified. `c:BYTES`: each of
//! their fronts is. For these two it is counted how often each answer came, and its places are summed: 0 is for images that
//! are verified, 1 to 8 for kinds of faults, 101 to 110 for the verifier's rules.
#![tactic(auto)]

mod bends;
mod judged;
mod tally;

use judged::{Answer, judged};
use mos_text::NoMemory;
use std::alloc::Global;
use std::io::{self, BufRead, BufReader};
use tests_lines::decoded;

fn said_of(alloc: Global, answer: Answer) -> Result<String, NoMemory> {
    match answer {
        Answer::Verified => Ok(String::from_str(alloc, "verified")?),
        Answer::Bad { at, kind } => Ok(format!(in alloc; "kind {kind} at {at}")?),
        Answer::Rejected { at, rule } => Ok(format!(in alloc; "rule {rule} at {at}")?),
    }
}

fn said(alloc: Global, line: &str) -> Result<String, NoMemory> {
    let (what, text) = line.split_once(':').unwrap_or(("b", line));
    let mut bytes = decoded(alloc, text)?;
    match what {
        "v" => said_of(alloc, judged(alloc, bytes.as_slice())?),
        "x" => bends::bent(alloc, bytes.as_mut_slice()),
        "c" => bends::cut(alloc, bytes.as_slice()),
        "d" => judged::listed(alloc, bytes.as_slice()),
        _ => judged::counted(alloc, bytes.as_slice()),
    }
}

fn main(rt: HostRuntime) -> io::Result<()> {
    let alloc: Global = rt.alloc();
    for line in BufReader::new(alloc, rt.reader())?.lines(alloc) {
        let line = line?;
        match said(alloc, line.as_str()) {
            Ok(text) => println!(rt; "{}", text.as_str())?,
            Err(_refused) => println!(rt; "no memory")?,
        }
    }
    Ok(())
}
