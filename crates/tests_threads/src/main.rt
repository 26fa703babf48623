//! The tests on threads: lanes that share one lock, each on a thread of its own. Each line of standard input names a case, and
//! is printed with how the case ended.
#![tactic(auto)]

mod asking;
mod early;
mod ending;
mod jobs;
mod relay;
mod relays;
mod runs;
mod tallies;

use mos_text::NoMemory;
use std::alloc::Global;
use std::io::{self, BufRead, BufReader};
use std::sync::Wait;
use std::thread::Threads;

/// How a case ended.
fn answer<R: Threads + Wait + Sync>(rt: &R, alloc: Global, case: &str) -> Result<String, NoMemory> {
    match case {
        "three lanes make 1000 calls each" => tallies::three_lanes(rt, alloc),
        "64 lanes" => tallies::sixty_four_lanes(rt, alloc),
        "an amount of 0 is refused" => tallies::calls_at_once(rt, alloc),
        "other refusals come at once" => tallies::calls_when_ready(rt, alloc),
        "a lane waits until another has acted" => relays::relay(rt, alloc),
        "three lanes share one hub" => jobs::job(rt, alloc),
        _ => Ok(String::from_str(alloc, "no such case")?),
    }
}

fn main(rt: HostRuntime) -> io::Result<()> {
    let alloc: Global = rt.alloc();
    for line in BufReader::new(alloc, rt.reader())?.lines(alloc) {
        let line = line?;
        match answer(&rt, alloc, line.as_str()) {
            Ok(said) => println!(rt; "{line}: {said}")?,
            Err(NoMemory) => println!(rt; "{line}: no memory")?,
        }
    }
    Ok(())
}
