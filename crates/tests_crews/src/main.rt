//! The tests of crews: lanes that meet, each on a thread of its own, and starts that are refused. Each line of standard
//! input names a case, and is printed with how the lanes ended.
#![tactic(auto)]

mod guest;
mod meetings;

use lane_crew::{MemCrew, SureCrew, ThreadCrew};
use meetings::{again, meet};
use mos_text::NoMemory;
use std::alloc::Global;
use std::io::{self, BufRead, BufReader};
use std::sync::Wait;
use std::thread::Threads;

/// How a case ended.
fn answer<R: Threads + Wait + Sync>(rt: &R, alloc: Global, case: &str) -> Result<String, NoMemory> {
    match case {
        "one lane alone" => meet(rt, alloc, &mut SureCrew::new(), 0, 1),
        "four lanes meet" => meet(rt, alloc, &mut SureCrew::new(), 3, 4),
        "64 lanes meet" => meet(rt, alloc, &mut SureCrew::new(), 63, 64),
        "four lanes meet on the threads of the system" => meet(
            rt,
            alloc,
            &mut ThreadCrew::new(),
            3,
            4,
        ),
        "no start is refused" => refusing(rt, alloc, 4),
        "the first start is refused" => refusing(rt, alloc, 1),
        "the second start is refused" => refusing(rt, alloc, 2),
        "the last start is refused" => refusing(rt, alloc, 3),
        "starts are numbered as long as the crew lives" => lasting(rt, alloc),
        _ => Ok(String::from_str(alloc, "no such case")?),
    }
}

/// Four lanes, of which this start is refused.
fn refusing<R: Threads + Wait + Sync>(
    rt: &R,
    alloc: Global,
    start: u32,
) -> Result<String, NoMemory> {
    let mut crew = MemCrew::new(vec![in alloc; start]?);
    let told = meet(rt, alloc, &mut crew, 3, 0)?;
    let faults = crew.faults();
    Ok(format!(in alloc; "{told}; {faults} faults")?)
}

/// Four lanes three times; the second start of the second time is refused, and the last of the third.
fn lasting<R: Threads + Wait + Sync>(rt: &R, alloc: Global) -> Result<String, NoMemory> {
    let mut crew = MemCrew::new(vec![in alloc; 5, 8]?);
    let told = again(rt, alloc, &mut crew)?;
    let faults = crew.faults();
    Ok(format!(in alloc; "{told}; {faults} faults")?)
}

fn main(rt: HostRuntime) -> io::Result<()> {
    let alloc: Global = rt.alloc();
    for line in BufReader::new(alloc, rt.reader())?.lines(alloc) {
        let line = line?;
        match answer(&rt, alloc, line.as_str()) {
            Ok(said) => println!(rt; "{line}: {said}")?,
            Err(NoMemory) => println!(rt; "{line}: no memory")?,
        }
    }
    Ok(())
}
