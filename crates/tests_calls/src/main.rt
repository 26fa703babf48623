//! The tests of public calls by lines: each line of standard input is a case, a group, a call and its arguments, and for each
//! a line is printed that says what the call answers. `tests_lines` says how a text is written.
#![tactic(auto)]

mod collections;
mod devices;
mod folders;
mod images;
mod kinds;
mod lists;
mod numbers;
mod operands;
mod operators;
mod ranges;
mod sinks;
mod texts;

use devices::Devices;
use std::alloc::{AllocError, Global};
use std::fs::Files;
use std::io::{self, BufRead, BufReader};

/// What is said to a line without a device.
fn asked<R: Files + AllocGlobal>(
    rt: &R,
    devices: &mut Devices,
    case: &str,
) -> Result<String, AllocError> {
    let alloc = rt.alloc();
    match case.split_once(' ') {
        Some(("system", rest)) => folders::system(rt, rest),
        Some((device, rest)) => devices.answer(alloc, device, rest),
        None => String::from_str(alloc, "no such device"),
    }
}

/// The answer to a case of the group that it names; none of a group that keeps something from line to line.
fn answer(alloc: Global, group: &str, case: &str) -> Result<String, AllocError> {
    match group {
        "text" => texts::answer(alloc, case),
        "value" => operators::answer(alloc, case),
        "image" => images::answer(alloc, case),
        _ => String::from_str(alloc, "no such group"),
    }
}

fn main(rt: HostRuntime) -> io::Result<()> {
    let alloc: Global = rt.alloc();
    let mut devices = Devices::new(alloc);
    for line in BufReader::new(alloc, rt.reader())?.lines(alloc) {
        let line = line?;
        let said = match line.as_str().split_once(' ') {
            Some(("device", case)) => asked(&rt, &mut devices, case)?,
            Some((group, case)) => answer(alloc, group, case)?,
            None => String::from_str(alloc, "no such group")?,
        };
        println!(rt; "{}", said.as_str())?;
    }
    Ok(())
}
