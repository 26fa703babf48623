//! The line that a command writes in place of a report, where it ends before its job.
ghost use Rattle.std.specs.Prelude.{◌≡◌, ◌++◌, IfOk, OnOk};
ghost use Rattle.hub_text.specs.ErrorLines.{about, bad_input_line, missing_line, read_fault_line, rule_text, too_large_line, usage_line, verdict_line};
ghost use Rattle.mos_text.specs.Kinds.{kind_text};

use crate::report_writer::put_number;
use mos_text::{Blob, Kind, NoMemory, Text};
use std::alloc::{AllocError, Global};

/// The words are no command.
#[tactic(auto, unfolding(crate::specs::ErrorLines::usage_line))]
pub fn write_usage(alloc: Global) -> Result<Blob, NoMemory>
    ensures { IfOk result (λ line. line ≡ usage_line) }
{
    Blob::new(alloc, b"mosel: usage\n")
}

/// A source is not accepted: the line at fault, from 1, and the kind of the fault.
#[tactic(auto, unfolding(crate::specs::ErrorLines::verdict_line))]
pub fn write_verdict(alloc: Global, name: &Text, line: u32, kind: &Kind) -> Result<Blob, NoMemory>
    ensures { IfOk result (λ text. text ≡ verdict_line name.now line kind.now) }
{
    let mut out = Vec::new(alloc);
    put_about(&mut out, name, b" line ")?;
    put_number(&mut out, line)?;
    out.extend_from_slice(b": ")?;
    put_kind(&mut out, kind)?;
    out.push(b'\n')?;
    Ok(Blob::from_vec(out))
}

/// A listed file is not there.
pub fn write_missing(alloc: Global, name: &Text) -> Result<Blob, NoMemory>
    ensures { IfOk result (λ line. line ≡ missing_line name.now) }
{
    let mut out = Vec::new(alloc);
    put_about(&mut out, name, b": missing\n")?;
    Ok(Blob::from_vec(out))
}

/// A listed file is above its limit.
pub fn write_too_large(alloc: Global, name: &Text) -> Result<Blob, NoMemory>
    ensures { IfOk result (λ line. line ≡ too_large_line name.now) }
{
    let mut out = Vec::new(alloc);
    put_about(&mut out, name, b": too large\n")?;
    Ok(Blob::from_vec(out))
}

/// The folder failed at a file.
pub fn write_read_fault(alloc: Global, name: &Text) -> Result<Blob, NoMemory>
    ensures { IfOk result (λ line. line ≡ read_fault_line name.now) }
{
    let mut out = Vec::new(alloc);
    put_about(&mut out, name, b": read fault\n")?;
    Ok(Blob::from_vec(out))
}

/// An image or an order file is not accepted: the byte at fault, from 0, and the number of the rule
/// that it breaks.
#[tactic(auto, unfolding(crate::specs::ErrorLines::bad_input_line))]
pub fn write_bad_input(alloc: Global, name: &Text, at: u64, rule: u32) -> Result<Blob, NoMemory>
    ensures { IfOk result (λ line. line ≡ bad_input_line name.now at rule) }
{
    let mut out = Vec::new(alloc);
    put_about(&mut out, name, b": bad input at ")?;
    put_number(&mut out, at)?;
    put_rule(&mut out, rule)?;
    Ok(Blob::from_vec(out))
}

/// The rule that is broken, at the end of the line.
#[tactic(auto, unfolding(crate::specs::ErrorLines::rule_text))]
fn put_rule(out: &mut Vec<u8>, rule: u32) -> Result<(), AllocError>
    ensures { OnOk result (out.new.items ≡ out.old.items ++ rule_text rule) }
{
    out.extend_from_slice(b", rule ")?;
    put_number(out, rule)?;
    Ok(out.push(b'\n')?)
}

/// The program's name, a file's, and what is the matter with it.
#[tactic(auto, unfolding(crate::specs::ErrorLines::about))]
fn put_about(out: &mut Vec<u8>, name: &Text, matter: &[u8]) -> Result<(), AllocError>
    ensures { OnOk result (out.new.items ≡ out.old.items ++ about name.now matter.now) }
{
    out.extend_from_slice(b"mosel: ")?;
    out.extend_from_slice(name.as_bytes())?;
    out.extend_from_slice(matter)
}

/// The kind's word, and after a space the name that it speaks of.
fn put_kind(out: &mut Vec<u8>, kind: &Kind) -> Result<(), AllocError>
    ensures { OnOk result (out.new.items ≡ out.old.items ++ kind_text kind.now) }
{
    out.extend_from_slice(kind.word().as_bytes())?;
    match kind.name() {
        None => Ok(()),
        Some(name) => {
            out.push(b' ')?;
            out.extend_from_slice(name.as_bytes())
        }
    }
}
