//! The tests of the front end: each line of standard input is a case, a subject and a text, and for each a line is
//! printed that says what the public calls answer. `tests_lines` says how a text is written.
#![tactic(auto)]

ghost use Rattle.std.specs.Prelude.{◌≤◌, length};

mod checks;
mod expressions;
mod least_trees;
mod pieces;
mod sources;
mod tokens;

use std::alloc::{AllocError, Global};
use std::io::{self, BufRead, BufReader};
use tests_lines::decoded;

/// The longest source that is read.
const LONGEST: usize = 1048576;

/// The answer to a case on a source.
fn answer_on(alloc: Global, subject: &str, source: &[u8]) -> Result<String, AllocError>
    requires { length source.now ≤ 1048576 }
{
    match subject {
        "tokens" => tokens::tokens(alloc, source),
        "pieces" => tokens::pieces(alloc, source),
        "counts" => tokens::counts(alloc, source),
        "expression" => expressions::expression(alloc, source),
        "slices" => expressions::slices(alloc, source),
        "piece" => pieces::kind(alloc, source),
        "source" => sources::source(alloc, source),
        "lines" => sources::lines(alloc, source),
        "check" => checks::check_source(alloc, source),
        "least-trees" => least_trees::least_trees(alloc),
        _ => expressions::on_words(alloc, subject, source),
    }
}

/// The answer to the case of a line.
fn answer(alloc: Global, line: &str) -> Result<String, AllocError> {
    let (subject, text) = line.split_once(' ').unwrap_or((line, ""));
    let source = decoded(alloc, text)?;
    if source.len() > LONGEST {
        return String::from_str(alloc, "too long");
    }
    answer_on(alloc, subject, source.as_slice())
}

fn main(rt: HostRuntime) -> io::Result<()> {
    let alloc = rt.alloc();
    for line in BufReader::new(alloc, rt.reader())?.lines(alloc) {
        let line = line?;
        let said = answer(alloc, line.as_str())?;
        println!(rt; "{}", said.as_str())?;
    }
    Ok(())
}
