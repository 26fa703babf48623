//! The tests of the program over devices in memory that fail by list. Each line of standard input is
//! a case: the words behind the program's name, then fields with semicolons between them; `|` stands
//! for a newline. For each a line is printed: the number of the status, how often the folder and the
//! sink failed, what the sink has, and the bytes of the names that were asked for.
//!
//! `NAME=TEXT` is a file of the folder, `long=NAME` one of 1,048,577 blanks and `full=NAME` one of
//! 1,048,576; `gets=`, `puts=` and `writes=` are the numbers of the calls that fail; `piece=` the
//! most bytes that a write takes; `show=NAME` asks for a name.
#![tactic(auto)]

mod case;
mod said;

use case::Case;
use mos_text::NoMemory;
use mosel_run::tool;
use said::said;
use std::alloc::Global;
use std::io::{self, BufRead, BufReader};

/// The line that is printed for a case.
fn answer(alloc: Global, line: &str) -> Result<String, NoMemory> {
    let mut case = Case::new(alloc, line)?;
    let status = tool(
        alloc,
        case.words.as_slice(),
        &mut case.folder,
        &mut case.sink,
    );
    Ok(said(alloc, &status, &case)?)
}

fn main(rt: HostRuntime) -> io::Result<()> {
    let alloc: Global = rt.alloc();
    for line in BufReader::new(alloc, rt.reader())?.lines(alloc) {
        let line = line?;
        match answer(alloc, line.as_str()) {
            Ok(said) => println!(rt; "{}", said.as_str())?,
            Err(NoMemory) => println!(rt; "no memory")?,
        }
    }
    Ok(())
}
