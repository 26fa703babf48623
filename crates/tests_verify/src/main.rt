//! The tests of the verifier by lines: each line of standard input is an image, a word for each entry of its tables and for each
//! instruction, and for each a line is printed that says whether it is verified, or the rule that it breaks and the place.
//! `images` says how an image is written.
#![tactic(auto)]

mod images;
mod limits;

use bim_verify::{VerifyFault, verify};
use limits::is_within;
use mos_text::NoMemory;
use std::alloc::Global;
use std::io::{self, BufRead, BufReader};

fn said(alloc: Global, line: &str) -> Result<String, NoMemory> {
    let image = images::image_of(alloc, line)?;
    if !is_within(&image) {
        return Ok(String::from_str(alloc, "beyond the limits")?);
    }
    match verify(alloc, image) {
        Ok(_verified) => Ok(String::from_str(alloc, "verified")?),
        Err(VerifyFault::Rejected { at, rule }) => Ok(format!(in alloc; "rule {rule} at {at}")?),
        Err(VerifyFault::NoMemory) => Ok(String::from_str(alloc, "no memory")?),
    }
}

fn main(rt: HostRuntime) -> io::Result<()> {
    let alloc: Global = rt.alloc();
    for line in BufReader::new(alloc, rt.reader())?.lines(alloc) {
        let line = line?;
        match said(alloc, line.as_str()) {
            Ok(text) => println!(rt; "{}", text.as_str())?,
            Err(_refused) => println!(rt; "no memory")?,
        }
    }
    Ok(())
}
