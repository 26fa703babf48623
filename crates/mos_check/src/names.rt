//! The first piece that uses a name without a value, or leaves or continues a loop where there is none.
ghost use Rattle.std.specs.Prelude.{◌≡◌, IfOk, OnOk, IfErr, true, false, map, option_copied};
ghost use Rattle.mos_check.specs.Names.{Knows, Says, fault_at, check_of, check_tops, check_top, check_statement, check_all, or_other, unknown_in, unknown_target, uses, with_target};

use crate::unknown::{unknown_in, unknown_in_all, unknown_target};
use mos_names::Names;
use mos_text::{Kind, NoMemory, Text};
use mos_tree::{Assignment, Expr, Reference, Refusal, Statement, Top, Tree};
use sqlite_items::Items;
use std::alloc::Global;

/// Why a source is refused whose every piece is of a form that can be run.
#[derive(Debug, Drop)]
pub enum CheckFault {
    /// The piece at fault, with the kind `UNKNOWN` and the name, or `LOOP`.
    Refused(Refusal),
    /// Memory was wanting.
    NoMemory,
}

impl From<NoMemory> for CheckFault {
    ghost use Rattle.std.specs.Prelude.{◌≡◌};
    ghost use Rattle.mos_check.specs.declared.names.CheckFault.TheVariants.{NoMemory};

    ghost from_gives = { λ _ fault. fault ≡ NoMemory };

    fn from(_refused: NoMemory) -> CheckFault {
        CheckFault::NoMemory
    }
}

/// The names that the source gives values, in the order in which it first does; or its first piece at
/// fault.
pub fn check(alloc: Global, tree: &Tree) -> Result<Items<Text>, CheckFault>
    ensures names { IfOk result (λ names. check_of tree.now ≡ Knows names) }
    ensures fault { IfErr result (Says (check_of tree.now)) }
{
    let mut known = Names::new(alloc);
    check_tops(alloc, &mut known, tree.tops.as_slice())?;
    Ok(known.texts(alloc)?)
}

fn check_tops<'a>(alloc: Global, known: &mut Names<'a>, tops: &'a [Top]) -> Result<(), CheckFault>
    ensures names { OnOk result (check_tops tops.now known.old ≡ Knows known.new) }
    ensures fault { IfErr result (Says (check_tops tops.now known.old)) }
{
    for top in tops {
        check_top(alloc, known, top)?;
    }
    Ok(())
}

fn check_top<'a>(alloc: Global, known: &mut Names<'a>, top: &'a Top) -> Result<(), CheckFault>
    ensures names { OnOk result (check_top top.now known.old ≡ Knows known.new) }
    ensures fault { IfErr result (Says (check_top top.now known.old)) }
{
    match top {
        Top::Statement(statement) => check_statement(alloc, known, false, statement),
        _ => Ok(()),
    }
}

#[cycle(checks)]
fn check_statement<'a>(
    alloc: Global,
    known: &mut Names<'a>,
    inside: bool,
    statement: &'a Statement,
) -> Result<(), CheckFault>
    ensures names { OnOk result (check_statement statement.now inside known.old ≡ Knows known.new) }
    ensures fault { IfErr result (Says (check_statement statement.now inside known.old)) }
{
    match statement {
        Statement::Assign {
            line,
            target,
            operator,
            value,
        } => {
            let unknown = unknown_in_assignment(known, target, *operator, value);
            refuse(alloc, *line, known, unknown)?;
            note_target(known, target, *operator)?;
            Ok(())
        }
        Statement::Call {
            line,
            arguments,
            ..
        } => {
            let unknown = unknown_in_all(known, arguments.as_slice());
            refuse(alloc, *line, known, unknown)
        }
        Statement::If {
            arms,
            otherwise,
            ..
        } => {
            for arm in arms.as_slice() {
                let unknown = unknown_in(known, &arm.condition);
                refuse(alloc, arm.line, known, unknown)?;
                check_all(alloc, known, inside, arm.body.as_slice())?;
            }
            check_all(alloc, known, inside, otherwise.as_slice())
        }
        Statement::While {
            line,
            condition,
            body,
        } => {
            let unknown = unknown_in(known, condition);
            refuse(alloc, *line, known, unknown)?;
            check_statement(alloc, known, true, body.get())
        }
        Statement::Do { body, .. } => check_all(alloc, known, inside, body.as_slice()),
        Statement::Break { line } | Statement::Next { line } => in_loop(inside, *line),
        _ => Ok(()),
    }
}

#[cycle(checks)]
fn check_all<'a>(
    alloc: Global,
    known: &mut Names<'a>,
    inside: bool,
    all: &'a [Statement],
) -> Result<(), CheckFault>
    ensures names { OnOk result
        (check_all (map check_statement all.now) inside known.old ≡ Knows known.new) }
    ensures fault { IfErr result (Says (check_all (map check_statement all.now) inside known.old)) }
{
    for statement in all {
        check_statement(alloc, known, inside, statement)?;
    }
    Ok(())
}

/// Refuses a piece on this line where a name in it is not known.
fn refuse(
    alloc: Global,
    line: u32,
    known: &Names<'_>,
    unknown: Option<&Text>,
) -> Result<(), CheckFault>
    ensures names { OnOk result (uses line known.now (option_copied unknown.entry) ≡ Knows known.now) }
    ensures fault { IfErr result (Says (uses line known.now (option_copied unknown.entry))) }
{
    match unknown {
        None => Ok(()),
        Some(name) => Err(CheckFault::Refused(Refusal {
            line,
            kind: Kind::Unknown(name.copy(alloc)?),
        })),
    }
}

/// Refuses `break` or `next` where it stands in no loop.
fn in_loop(inside: bool, line: u32) -> Result<(), CheckFault>
    ensures names { OnOk result (inside ≡ true) }
    ensures fault { IfErr result (λ fault. (inside ≡ false) × (fault ≡ fault_at line Kind.Loop)) }
{
    if inside {
        return Ok(());
    }
    Err(CheckFault::Refused(Refusal {
        line,
        kind: Kind::Loop,
    }))
}

fn unknown_in_assignment<'a>(
    known: &Names<'_>,
    target: &'a Reference,
    operator: Assignment,
    value: &'a Expr,
) -> Option<&'a Text>
    ensures { option_copied result
        ≡ or_other
        (unknown_target target.now operator known.now)
        (unknown_in value.now known.now) }
{
    match unknown_target(known, target, operator) {
        Some(name) => Some(name),
        None => unknown_in(known, value),
    }
}

/// Adds the name that `:=` gives a value.
fn note_target<'a>(
    known: &mut Names<'a>,
    target: &'a Reference,
    operator: Assignment,
) -> Result<(), NoMemory>
    ensures { OnOk result (known.new ≡ with_target target.now operator known.old) }
{
    match (target, operator) {
        (Reference::Name(name), Assignment::Set) => known.note(name.text()),
        _ => Ok(()),
    }
}
