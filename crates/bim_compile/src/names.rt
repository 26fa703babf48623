//! The variables of a model, by their names.
ghost use Rattle.std.specs.Prelude.{◌≡◌, [], OnOk, map};
ghost use Rattle.mos_meaning.specs.Sources.{block, block_of, core_of_top, names_after, names_from, core_of};

use mos_names::Names;
use mos_text::NoMemory;
use mos_tree::{Assignment, Reference, Statement, Top};

/// Adds the names that are assigned to, in the order of their first assignments.
pub(crate) fn note_tops<'a>(names: &mut Names<'a>, tops: &'a [Top]) -> Result<(), NoMemory>
    ensures { OnOk result (names.new ≡ names_from names.old (block (map core_of_top tops.now))) }
{
    for top in tops {
        note_top(names, top)?;
    }
    Ok(())
}

/// Adds the names that a piece assigns to and that are not among them yet.
fn note_top<'a>(names: &mut Names<'a>, top: &'a Top) -> Result<(), NoMemory>
    ensures { OnOk result (names.new ≡ names_after names.old (core_of_top top.now)) }
{
    match top {
        Top::Statement(statement) => note_statement(names, statement),
        _ => Ok(()),
    }
}

#[cycle(notes)]
fn note_statement<'a>(names: &mut Names<'a>, statement: &'a Statement) -> Result<(), NoMemory>
    ensures { OnOk result (names.new ≡ names_after names.old (core_of statement.now)) }
{
    match statement {
        Statement::Assign {
            target: Reference::Name(name),
            operator: Assignment::Set,
            ..
        } => names.note(name.text()),
        Statement::If {
            arms,
            otherwise,
            ..
        } => {
            for arm in arms.as_slice() {
                note_block(names, arm.body.as_slice())?;
            }
            note_block(names, otherwise.as_slice())
        }
        Statement::While { body, .. } => note_statement(names, body.get()),
        Statement::Do { body, .. } => note_block(names, body.as_slice()),
        _ => Ok(()),
    }
}

#[cycle(notes)]
fn note_block<'a>(names: &mut Names<'a>, all: &'a [Statement]) -> Result<(), NoMemory>
    ensures { OnOk result (names.new ≡ names_from names.old (block_of all.now)) }
{
    for statement in all {
        note_statement(names, statement)?;
    }
    Ok(())
}
