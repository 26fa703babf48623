//! The first piece of a source that is of no form that can be run.
ghost use Rattle.std.specs.Prelude.{◌≡◌, ◌&&◌, IfOk, MatchOption, Some, None, pos, map};
ghost use Rattle.mos_check.specs.NotBuilt.{unbuilt_of, unbuilt_head, unbuilt_in, unbuilt_in_all, unbuilt_in_top, unless, is_variable, is_write, shows_one, first_of};

use crate::form::{Form, form_of};
use mos_text::{Kind, NoMemory, SourceText, Text};
use mos_tree::{Expr, Head, Reference, Refusal, Statement, Top, Tree};
use std::alloc::Global;

/// The first piece whose form cannot be run: its line, with the kind `SYNTAX`, or `MODULE mmjobs` for a
/// piece that uses that module. None where every piece is of a form that can.
pub fn not_built(alloc: Global, tree: &Tree) -> Result<Option<Refusal>, NoMemory>
    ensures { IfOk result (λ found. MatchOption found
        (unbuilt_of tree.now ≡ None)
        (λ refusal. unbuilt_of tree.now ≡ Some (refusal.line, refusal.kind))) }
{
    if let [head, ..] = tree.heads.as_slice() {
        let (line, kind) = unbuilt_head(alloc, head)?;
        return Ok(Some(Refusal { line, kind }));
    }
    match first_unbuilt(tree.tops.as_slice()) {
        Some(line) => Ok(Some(Refusal {
            line,
            kind: Kind::Syntax,
        })),
        None => Ok(None),
    }
}

fn unbuilt_head(alloc: Global, head: &Head) -> Result<(u32, Kind), NoMemory>
    ensures { IfOk result (λ found. (found.0, found.1) ≡ unbuilt_head head.now) }
{
    match head {
        Head::Uses { line, .. } => {
            let module = Text::from_string(String::from_str(alloc, "mmjobs")?);
            Ok((*line, Kind::Module(module)))
        }
        Head::NoImplicit { line } => Ok((*line, Kind::Syntax)),
    }
}

fn first_unbuilt(tops: &[Top]) -> Option<u32>
    ensures { result ≡ first_of (map unbuilt_in_top tops.now) }
{
    for top in tops {
        if let Some(line) = unbuilt_in_top(top) {
            return Some(line);
        }
    }
    None
}

fn unbuilt_in_top(top: &Top) -> Option<u32>
    ensures { result ≡ unbuilt_in_top top.now }
{
    match top {
        Top::Parameters { line, .. } => Some(*line),
        Top::Declarations(declared) => Some(declared.line),
        Top::Routine(routine) => Some(routine.heading.line),
        Top::Forward(heading) => Some(heading.line),
        Top::Statement(statement) => unbuilt_in(statement),
    }
}

#[cycle(built)]
fn unbuilt_in(statement: &Statement) -> Option<u32>
    ensures { result ≡ unbuilt_in statement.now }
{
    match statement {
        Statement::Assign {
            line,
            target,
            value,
            ..
        } => unless(is_variable(target) && form_of(value) == Form::Sum, *line),
        Statement::Call {
            line,
            name,
            arguments,
        } => unless(is_write(name) && shows_one(arguments.as_slice()), *line),
        Statement::If {
            arms,
            otherwise,
            ..
        } => {
            for arm in arms.as_slice() {
                if form_of(&arm.condition) != Form::Condition {
                    return Some(arm.line);
                }
                if let Some(line) = unbuilt_in_all(arm.body.as_slice()) {
                    return Some(line);
                }
            }
            unbuilt_in_all(otherwise.as_slice())
        }
        Statement::While {
            line,
            condition,
            body,
        } => {
            if form_of(condition) == Form::Condition {
                unbuilt_in(body.get())
            } else {
                Some(*line)
            }
        }
        Statement::Do { body, .. } => unbuilt_in_all(body.as_slice()),
        Statement::Break { .. } | Statement::Next { .. } => None,
        Statement::Fill { line, .. } | Statement::Case { line, .. } => Some(*line),
        Statement::Forall { line, .. } | Statement::Repeat { line, .. } => Some(*line),
        Statement::Initializations { line, .. } => Some(*line),
    }
}

#[cycle(built)]
fn unbuilt_in_all(all: &[Statement]) -> Option<u32>
    ensures { result ≡ unbuilt_in_all all.now }
{
    for statement in all {
        if let Some(line) = unbuilt_in(statement) {
            return Some(line);
        }
    }
    None
}

fn unless(is_built: bool, line: u32) -> Option<u32>
    ensures { result ≡ unless is_built line }
{
    if is_built { None } else { Some(line) }
}

fn is_variable(target: &Reference) -> bool
    ensures { result ≡ is_variable target.now }
{
    matches!(target, Reference::Name(_))
}

fn is_write(called: &SourceText) -> bool
    ensures { result ≡ is_write called.now }
{
    called.as_str() == "writeln" || called.as_str() == "write"
}

fn shows_one(all: &[Expr]) -> bool
    ensures { result ≡ shows_one all.now }
{
    match all {
        [shown] => matches!(form_of(shown), Form::Sum | Form::Text),
        _ => false,
    }
}
