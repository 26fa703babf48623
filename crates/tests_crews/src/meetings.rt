//! Lanes that a crew is given, and what is told of their ends.
use crate::guest::{Guest, Left};
use lane_crew::{Crew, Crewed};
use mos_text::NoMemory;
use std::alloc::Global;
use std::sync::Wait;
use std::sync::atomic::AtomicU64;
use std::thread::Threads;

// The lanes from number 1 on.
fn others<'a>(
    alloc: Global,
    many: u32,
    awaited: u64,
    came: &'a AtomicU64,
) -> Result<Vec<Guest<'a>>, NoMemory> {
    let mut guests = Vec::new(alloc);
    for before in 0..many {
        guests.push(Guest {
            number: before + 1,
            awaited,
            came,
        })?;
    }
    Ok(guests)
}

// Each lane's number, and whether it ran or quit.
fn told(alloc: Global, how: &str, ends: &[Left]) -> Result<String, NoMemory> {
    let mut text = String::from_str(alloc, how)?;
    for end in ends {
        let number = end.number;
        let way = if end.ran { "ran" } else { "quit" };
        let one = format!(in alloc; " {number} {way}")?;
        text.push_str(one.as_str())?;
    }
    Ok(text)
}

/// One lane and so many others, each of which waits until so many have come: how they ended.
pub fn meet<C: Crew, R: Threads + Wait + Sync>(
    rt: &R,
    alloc: Global,
    crew: &mut C,
    many: u32,
    awaited: u64,
) -> Result<String, NoMemory> {
    let came = AtomicU64::new(0);
    let first = Guest {
        number: 0,
        awaited,
        came: &came,
    };
    let others = others(alloc, many, awaited, &came)?;
    match crew.all(rt, alloc, first, others) {
        Crewed::Ended(ends) => told(alloc, "ended", ends.as_slice()),
        Crewed::Refused(ends) => told(alloc, "refused", ends.as_slice()),
        Crewed::NoMemory(ends) => told(alloc, "no memory", ends.as_slice()),
    }
}

/// Four lanes that wait for none, three times.
pub fn again<C: Crew, R: Threads + Wait + Sync>(
    rt: &R,
    alloc: Global,
    crew: &mut C,
) -> Result<String, NoMemory> {
    let first = meet(rt, alloc, crew, 3, 0)?;
    let second = meet(rt, alloc, crew, 3, 0)?;
    let third = meet(rt, alloc, crew, 3, 0)?;
    Ok(format!(in alloc; "{first}, {second}, {third}")?)
}
