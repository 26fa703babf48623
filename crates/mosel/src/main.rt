//! The program: its words, the files under the current folder and standard output go to
//! `mosel_run::tool`, and it ends with the number of the status that comes back.
#![tactic(auto)]

use mos_text::{DirFolder, NoMemory, OutSink, Text};
use mosel_run::{Status, tool};
use std::alloc::Global;
use std::io::ErrorKind;
use std::process::ExitCode;
use std::rt::Env;
use std::{env, io};

/// The words of the command line. Where they cannot be had, as where one is no UTF-8, there are none.
fn words<R: Env + AllocGlobal>(rt: &R) -> Result<Vec<Text>, NoMemory> {
    let mut words = Vec::new(rt.alloc());
    match env::args(rt) {
        Ok(args) => {
            for word in args {
                words.push(Text::from_string(word))?;
            }
        }
        Err(error) => {
            if error.kind() == ErrorKind::OutOfMemory {
                return Err(NoMemory);
            }
        }
    }
    Ok(words)
}

fn main(rt: HostRuntime) -> ExitCode {
    let alloc: Global = rt.alloc();
    let status = match words(&rt) {
        Ok(words) => {
            let mut folder = DirFolder::new(&rt);
            let mut sink = OutSink::new(io::writer(&rt));
            tool(alloc, words.as_slice(), &mut folder, &mut sink)
        }
        Err(_) => Status::NoMemory,
    };
    ExitCode::from(status.code())
}
