//! What the check of a tree answers.

ghost use Rattle.std.specs.Prelude.{◌≤◌, length};

use crate::sources::{fault, refusal};
use mos_check::{CheckFault, check, not_built};
use mos_parse::parse;
use mos_text::let_go;
use mos_tree::Tree;
use std::alloc::{AllocError, Global};

/// How many names a tree gives values, or the first piece at fault.
fn names(alloc: Global, tree: &Tree) -> Result<String, AllocError> {
    match check(alloc, tree) {
        Ok(names) => format!(in alloc; "{} names", names.len()),
        Err(CheckFault::Refused(found)) => refusal(alloc, found.line, &found.kind),
        Err(CheckFault::NoMemory) => String::from_str(alloc, "no memory"),
    }
}

/// The first piece of a tree that cannot be run yet; else what the check of its names answers.
fn checked(alloc: Global, tree: &Tree) -> Result<String, AllocError> {
    match not_built(alloc, tree) {
        Ok(Some(found)) => refusal(alloc, found.line, &found.kind),
        Ok(None) => names(alloc, tree),
        Err(_) => String::from_str(alloc, "no memory"),
    }
}

/// The verdict on a source.
pub fn check_source(alloc: Global, source: &[u8]) -> Result<String, AllocError>
    requires { length source.now ≤ 1048576 }
{
    match parse(alloc, source) {
        Ok(tree) => {
            let said = checked(alloc, &tree);
            let_go(tree);
            said
        }
        Err(found) => fault(alloc, &found),
    }
}
