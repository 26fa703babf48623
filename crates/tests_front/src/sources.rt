//! What `parse` answers.

ghost use Rattle.std.specs.Prelude.{◌≤◌, length};

use mos_parse::{SyntaxFault, parse};
use mos_text::{Kind, let_go};
use mos_tree::{Statement, Top, Tree};
use std::alloc::{AllocError, Global};

/// A line and a kind, with the name that it holds.
pub fn refusal(alloc: Global, line: u32, kind: &Kind) -> Result<String, AllocError> {
    match kind.name() {
        Some(name) => format!(in alloc; "line {line} {} {}", kind.word(), name.as_str()),
        None => format!(in alloc; "line {line} {}", kind.word()),
    }
}

/// The text for a fault of a source.
pub fn fault(alloc: Global, fault: &SyntaxFault) -> Result<String, AllocError> {
    match fault {
        SyntaxFault::Refused(found) => refusal(alloc, found.line, &found.kind),
        SyntaxFault::NoMemory => String::from_str(alloc, "no memory"),
    }
}

fn counts(tree: &Tree) -> (usize, usize) {
    (tree.heads.len(), tree.tops.len())
}

/// How many heads and tops the tree of a source has, or its fault.
pub fn source(alloc: Global, source: &[u8]) -> Result<String, AllocError>
    requires { length source.now ≤ 1048576 }
{
    match parse(alloc, source) {
        Ok(tree) => {
            let (heads, tops) = counts(&tree);
            let_go(tree);
            format!(in alloc; "{heads} heads, {tops} tops")
        }
        Err(found) => fault(alloc, &found),
    }
}

/// The line of a piece behind the heads; 0 for those that no case asks for.
fn line_of(top: &Top) -> u32 {
    match top {
        Top::Statement(Statement::Assign { line, .. }) => *line,
        Top::Statement(Statement::If { line, .. }) => *line,
        Top::Declarations(declared) => declared.line,
        _ => 0,
    }
}

fn listed(alloc: Global, tree: &Tree) -> Result<String, AllocError> {
    let mut said = String::from_str(alloc, "lines")?;
    for top in tree.tops.as_slice() {
        let one = format!(in alloc; " {}", line_of(top))?;
        said.push_str(one.as_str())?;
    }
    Ok(said)
}

/// The lines of the pieces of a source behind its heads.
pub fn lines(alloc: Global, source: &[u8]) -> Result<String, AllocError>
    requires { length source.now ≤ 1048576 }
{
    match parse(alloc, source) {
        Ok(tree) => {
            let said = listed(alloc, &tree);
            let_go(tree);
            said
        }
        Err(found) => fault(alloc, &found),
    }
}
