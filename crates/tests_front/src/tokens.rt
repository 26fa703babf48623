//! What `scan` and `pieces` answer.

ghost use Rattle.std.specs.Prelude.{◌≤◌, length};

use mos_scan::{LexFault, Piece, Token};
use std::alloc::{AllocError, Global};

/// The fault of a source without tokens: its line, column, kind and name.
fn fault(alloc: Global, fault: &LexFault) -> Result<String, AllocError> {
    match fault {
        LexFault::At { line, column, kind } => match kind.name() {
            Some(name) => { format!(in alloc; "{line}:{column} {} {}", kind.word(), name.as_str()) }
            None => format!(in alloc; "{line}:{column} {}", kind.word()),
        },
        LexFault::NoMemory => String::from_str(alloc, "no memory"),
    }
}

/// Each token with its line and from where to where it goes.
fn listed(alloc: Global, tokens: &[Token]) -> Result<String, AllocError> {
    let mut said = format!(in alloc; "{} tokens", tokens.len())?;
    for token in tokens {
        let one = format!(in alloc;
            ", {:?} {}:{}-{}",
            token.kind, token.line, token.from, token.to
        )?;
        said.push_str(one.as_str())?;
    }
    Ok(said)
}

/// Each piece with its line and from which token to which it goes.
fn listed_pieces(alloc: Global, pieces: &[Piece]) -> Result<String, AllocError> {
    let mut said = format!(in alloc; "{} pieces", pieces.len())?;
    for piece in pieces {
        let one = format!(in alloc; ", {}:{}-{}", piece.line, piece.from, piece.to)?;
        said.push_str(one.as_str())?;
    }
    Ok(said)
}

/// The tokens of a source, or its fault.
pub fn tokens(alloc: Global, source: &[u8]) -> Result<String, AllocError>
    requires { length source.now ≤ 1048576 }
{
    match mos_scan::scan(alloc, source) {
        Ok(tokens) => listed(alloc, tokens.as_slice()),
        Err(found) => fault(alloc, &found),
    }
}

/// The pieces of a source, or its fault.
pub fn pieces(alloc: Global, source: &[u8]) -> Result<String, AllocError>
    requires { length source.now ≤ 1048576 }
{
    match mos_scan::scan(alloc, source) {
        Ok(tokens) => match mos_scan::pieces(alloc, tokens.as_slice()) {
            Ok(pieces) => listed_pieces(alloc, pieces.as_slice()),
            Err(_) => String::from_str(alloc, "no memory"),
        },
        Err(found) => fault(alloc, &found),
    }
}

/// How many tokens and pieces a source has, or its fault.
pub fn counts(alloc: Global, source: &[u8]) -> Result<String, AllocError>
    requires { length source.now ≤ 1048576 }
{
    match mos_scan::scan(alloc, source) {
        Ok(tokens) => match mos_scan::pieces(alloc, tokens.as_slice()) {
            Ok(found) => { format!(in alloc; "{} tokens, {} pieces", tokens.len(), found.len()) }
            Err(_) => String::from_str(alloc, "no memory"),
        },
        Err(found) => fault(alloc, &found),
    }
}
