//! The sizes of statements.
ghost use Rattle.std.specs.Prelude.{◌≡◌, map, sum};
ghost use Rattle.mos_tree.specs.Children.{in_arm, in_alternative};
ghost use Rattle.mos_sizes.specs.SizeCounts as spec;
ghost use Rattle.mos_sizes.specs.SizeCounts.{capped};

use crate::expressions::{each, expr, exprs, index};
use mos_tree::{Alternative, Arm, LabelGroup, Reference, Statement};

fn reference(x: &Reference) -> u64
    ensures { result ≡ capped (spec.reference_size x.now) }
{
    match x {
        Reference::Name(_) | Reference::Field(_, _) | Reference::Returned => 0,
        Reference::Cell(_, all) | Reference::CellField(_, all, _) => exprs(all.as_slice()),
    }
}

/// The labels of `initializations`.
fn labels(all: &[LabelGroup]) -> u64
    ensures { result ≡ capped (spec.labels_size all.now) }
{
    let mut size = 0_u64;
    for x in all {
        size = size.saturating_add(each(8, x.labels.len()));
    }
    size
}

/// A statement.
#[cycle(statements)]
pub(crate) fn statement(x: &Statement) -> u64
    ensures { result ≡ capped (spec.statement_size x.now) }
{
    match x {
        Statement::Assign { target, value, .. } => {
            reference(target)
                .saturating_add(expr(value))
                .saturating_add(24)
        }
        Statement::Fill { values, .. } => exprs(values.as_slice()).saturating_add(24),
        Statement::Call { arguments, .. } => exprs(arguments.as_slice()).saturating_add(24),
        Statement::If {
            arms: all,
            otherwise,
            ..
        } => {
            let arms = arms(all.as_slice());
            arms.saturating_add(statements(otherwise.as_slice()))
                .saturating_add(24)
        }
        Statement::Case {
            value,
            alternatives: all,
            otherwise,
            ..
        } => {
            let chosen = expr(value).saturating_add(alternatives(all.as_slice()));
            chosen
                .saturating_add(statements(otherwise.as_slice()))
                .saturating_add(24)
        }
        Statement::Forall {
            index: over,
            body,
            ..
        } => index(over)
            .saturating_add(statement(body.get()))
            .saturating_add(24),
        Statement::While {
            condition,
            body,
            ..
        } => expr(condition)
            .saturating_add(statement(body.get()))
            .saturating_add(24),
        Statement::Repeat {
            body,
            condition,
            ..
        } => {
            let body = statements(body.as_slice());
            body.saturating_add(expr(condition)).saturating_add(24)
        }
        Statement::Do { body, .. } => statements(body.as_slice()).saturating_add(24),
        Statement::Break { .. } | Statement::Next { .. } => 24,
        Statement::Initializations {
            name,
            labels: all,
            ..
        } => expr(name)
            .saturating_add(labels(all.as_slice()))
            .saturating_add(24),
    }
}

/// Statements.
#[cycle(statements)]
fn statements(all: &[Statement]) -> u64
    ensures { result ≡ capped (sum (map spec.statement_size all.now)) }
{
    let mut size = 0_u64;
    for x in all {
        size = size.saturating_add(statement(x));
    }
    size
}

/// The arms of `if`.
#[cycle(statements)]
fn arms(all: &[Arm<Statement>]) -> u64
    ensures { result ≡ capped (spec.arms_size (map (in_arm spec.statement_size) all.now)) }
{
    let mut size = 0_u64;
    for arm in all {
        size = size.saturating_add(expr(&arm.condition));
        for x in arm.body.as_slice() {
            size = size.saturating_add(statement(x));
        }
    }
    size
}

/// The alternatives of `case`.
#[cycle(statements)]
fn alternatives(all: &[Alternative<Statement>]) -> u64
    ensures { result
        ≡ capped (spec.alternatives_size (map (in_alternative spec.statement_size) all.now)) }
{
    let mut size = 0_u64;
    for x in all {
        let labels = exprs(x.labels.as_slice());
        size = size
            .saturating_add(labels)
            .saturating_add(statement(&x.body));
    }
    size
}
