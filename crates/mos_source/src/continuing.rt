//! A block with one row more, or parted by a piece.
ghost use Rattle.std.specs.Prelude.{◌≡◌, [], ◌∷◌, ◌++◌, IfOk};
ghost use Rattle.mos_source.specs.Machine as spec;

use crate::frame::Frame;
use crate::growing::{more, one_more};
use mos_text::{NoMemory, SourceText, let_go};
use mos_tree::{
    Alternative, Arm, Direction, Expr, FieldGroup, Form, Head, Item, Label, LabelGroup, ModelName,
    Parameter, Statement,
};
use sqlite_items::Items;
use std::alloc::Global;

fn head_of(line: u32, form: Form) -> Option<Head>
    ensures { result ≡ spec.head_of line form }
{
    match form {
        Form::Uses(modules) => Some(Head::Uses { line, modules }),
        Form::Options(name) => {
            let_go(name);
            Some(Head::NoImplicit { line })
        }
        other => {
            let_go(other);
            None
        }
    }
}

fn parameter_of(line: u32, form: Form) -> Option<Parameter>
    ensures { result ≡ spec.parameter_of line form }
{
    match form {
        Form::Definition { name, value } => Some(Parameter {
            line,
            name,
            default: value,
        }),
        other => {
            let_go(other);
            None
        }
    }
}

fn item_of(line: u32, form: Form) -> Option<Item>
    ensures { result ≡ spec.item_of line form }
{
    match form {
        Form::Definition { name, value } => Some(Item::Constant { line, name, value }),
        Form::Typed { names, typ } => Some(Item::Variables { line, names, typ }),
        other => {
            let_go(other);
            None
        }
    }
}

fn field_of(line: u32, form: Form) -> Option<FieldGroup>
    ensures { result ≡ spec.field_of line form }
{
    match form {
        Form::Typed { names, typ } => Some(FieldGroup { line, names, typ }),
        other => {
            let_go(other);
            None
        }
    }
}

fn label_of(alloc: Global, name: SourceText) -> Result<Items<Label>, NoMemory>
    ensures { IfOk result (λ labels. labels ≡ spec.labels_of name) }
{
    one_more(Items::new(alloc), Label { name, shown: None })
}

fn row_of(alloc: Global, line: u32, form: Form) -> Result<Option<LabelGroup>, NoMemory>
    ensures { IfOk result (λ row. row ≡ spec.row_of line form) }
{
    match form {
        Form::Bare(name) => Ok(Some(LabelGroup {
            line,
            labels: label_of(alloc, name)?,
        })),
        Form::Labels(labels) => Ok(Some(LabelGroup { line, labels })),
        other => {
            let_go(other);
            Ok(None)
        }
    }
}

/// A model with a head more.
fn with_head(
    line: u32,
    name: ModelName,
    heads: Items<Head>,
    head: Option<Head>,
) -> Result<Frame, NoMemory>
    ensures { IfOk result (λ frame. frame ≡ Frame.Heads line name (spec.more heads head)) }
{
    match more(heads, head) {
        Ok(heads) => Ok(Frame::Heads { line, name, heads }),
        Err(refused) => {
            let_go(name);
            Err(refused)
        }
    }
}

/// A record with a group of fields more.
fn with_field(
    line: u32,
    name: SourceText,
    fields: Items<FieldGroup>,
    field: Option<FieldGroup>,
) -> Result<Frame, NoMemory>
    ensures { IfOk result (λ frame. frame ≡ Frame.Record line name (spec.more fields field)) }
{
    match more(fields, field) {
        Ok(fields) => Ok(Frame::Record { line, name, fields }),
        Err(refused) => {
            let_go(name);
            Err(refused)
        }
    }
}

/// `initializations` with a row more.
fn with_row(
    line: u32,
    direction: Direction,
    name: Expr,
    rows: Items<LabelGroup>,
    row: Option<LabelGroup>,
) -> Result<Frame, NoMemory>
    ensures { IfOk result (λ frame. frame
        ≡ Frame.Initializations line direction name (spec.more rows row)) }
{
    match more(rows, row) {
        Ok(rows) => Ok(Frame::Initializations {
            line,
            direction,
            name,
            rows,
        }),
        Err(refused) => {
            let_go(name);
            Err(refused)
        }
    }
}

/// Another arm where the piece has a condition, or `else`.
fn arm_or_else(
    alloc: Global,
    line: u32,
    form: Form,
    first: u32,
    arms: Items<Arm<Statement>>,
) -> Frame
    ensures { result ≡ spec.arm_or_else line form first arms }
{
    match form {
        Form::Guarded(_, condition) => Frame::IfArm {
            first,
            arms,
            line,
            condition,
            body: Items::new(alloc),
        },
        other => {
            let_go(other);
            Frame::IfElse {
                first,
                arms,
                body: Items::new(alloc),
            }
        }
    }
}

/// Behind the arm that is read: another arm, or `else`.
fn next_arm(
    alloc: Global,
    line: u32,
    form: Form,
    first: u32,
    arms: Items<Arm<Statement>>,
    last: Arm<Statement>,
) -> Result<Frame, NoMemory>
    ensures { IfOk result (λ frame. frame ≡ spec.next_arm line form first arms last) }
{
    match one_more(arms, last) {
        Ok(arms) => Ok(arm_or_else(alloc, line, form, first, arms)),
        Err(refused) => {
            let_go(form);
            Err(refused)
        }
    }
}

/// Behind an alternative: another one where the piece has labels, or `else`.
fn next_alternative(
    alloc: Global,
    at: u32,
    form: Form,
    line: u32,
    value: Expr,
    alternatives: Items<Alternative<Statement>>,
) -> Frame
    ensures { result ≡ spec.next_alternative at form line value alternatives }
{
    match form {
        Form::Alternative(labels) => Frame::CaseArm {
            line,
            value,
            alternatives,
            at,
            labels,
        },
        other => {
            let_go(other);
            Frame::CaseElse {
                line,
                value,
                alternatives,
                body: Items::new(alloc),
            }
        }
    }
}

/// The statement with the piece as a row of it, or parted by it.
fn continued_statement(
    alloc: Global,
    line: u32,
    form: Form,
    frame: Frame,
) -> Result<Frame, NoMemory>
    ensures { IfOk result (λ next. next ≡ spec.continued_statement line form frame) }
{
    match frame {
        Frame::IfArm {
            first,
            arms,
            line: at,
            condition,
            body,
        } => {
            let last = Arm {
                line: at,
                condition,
                body,
            };
            next_arm(alloc, line, form, first, arms, last)
        }
        Frame::Case {
            line: at,
            value,
            alternatives,
        } => Ok(next_alternative(alloc, line, form, at, value, alternatives)),
        Frame::Initializations {
            line: at,
            direction,
            name,
            rows,
        } => match row_of(alloc, line, form) {
            Ok(row) => with_row(at, direction, name, rows, row),
            Err(refused) => {
                let_go(name);
                let_go(rows);
                Err(refused)
            }
        },
        other => {
            let_go(form);
            Ok(other)
        }
    }
}

/// The block with the piece as a row of it, or parted by it.
pub(crate) fn continued_by(
    alloc: Global,
    line: u32,
    form: Form,
    frame: Frame,
) -> Result<Frame, NoMemory>
    ensures { IfOk result (λ next. next ≡ spec.continued_by line form frame) }
{
    match frame {
        Frame::Heads {
            line: at,
            name,
            heads,
        } => with_head(at, name, heads, head_of(line, form)),
        Frame::Parameters {
            line: at,
            parameters,
        } => Ok(Frame::Parameters {
            line: at,
            parameters: more(parameters, parameter_of(line, form))?,
        }),
        Frame::Declarations { line: at, items } => Ok(Frame::Declarations {
            line: at,
            items: more(items, item_of(line, form))?,
        }),
        Frame::Record {
            line: at,
            name,
            fields,
        } => with_field(at, name, fields, field_of(line, form)),
        other => continued_statement(alloc, line, form, other),
    }
}
