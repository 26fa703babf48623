//! How many nodes and statements a tree has.
ghost use Rattle.std.specs.Prelude.{◌≡◌, ◌<◌, ◌^◌, ℕ, ◌+◌};
ghost use Rattle.mos_tree.specs.Nodes as spec;
ghost use Rattle.mos_tree.specs.Statements as spec_of_statements;

use crate::{Alternative, Arm, Expr, Group, Statement};

/// The number of nodes of an expression: each literal, name, operator, call, set, list, `if` and
/// aggregate is one, and each group of index names. A field's name is none.
#[cycle(nodes)]
pub fn nodes(expr: &Expr) -> u64
    requires { spec.nodes expr.now < 2 ^ 64 }
    ensures { result ≡ spec.nodes expr.now }
{
    match expr {
        Expr::Integer(_) | Expr::Text(_) | Expr::Truth(_) | Expr::Name(_) => 1,
        Expr::Returned | Expr::Field(_, _) => 1,
        Expr::Call(_, all) => nodes_in(all.as_slice()) + 1,
        Expr::CallField(_, all, _) => nodes_in(all.as_slice()) + 1,
        Expr::Set(all) | Expr::List(all) => nodes_in(all.as_slice()) + 1,
        Expr::If(a, b, c) => nodes(a.get()) + nodes(b.get()) + nodes(c.get()) + 1,
        Expr::Convert(_, a) => nodes(a.get()) + 1,
        Expr::Unary(_, a) => nodes(a.get()) + 1,
        Expr::Binary(_, a, b) => nodes(a.get()) + nodes(b.get()) + 1,
        Expr::Aggregate(_, index, body) => {
            let groups = nodes_in_groups(index.groups.as_slice());
            let body = nodes(body.get());
            match &index.condition {
                None => groups + body + 1,
                Some(condition) => groups + nodes(condition.get()) + body + 1,
            }
        }
        Expr::Count(index) => {
            let groups = nodes_in_groups(index.groups.as_slice());
            match &index.condition {
                None => groups + 1,
                Some(condition) => groups + nodes(condition.get()) + 1,
            }
        }
    }
}

/// The number of nodes of several expressions.
#[cycle(nodes)]
fn nodes_in(all: &[Expr]) -> u64
    requires { spec.nodes_in all.now < 2 ^ 64 }
    ensures { result ≡ spec.nodes_in all.now }
{
    let mut sum = 0;
    for expr in all {
        sum += nodes(expr);
    }
    sum
}

#[cycle(nodes)]
fn nodes_in_groups(groups: &[Group<Expr>]) -> u64
    requires { spec.nodes_in_groups groups.now < 2 ^ 64 }
    ensures { result ≡ spec.nodes_in_groups groups.now }
{
    let mut sum = 0;
    for group in groups {
        sum += nodes(&group.set) + 1;
    }
    sum
}

/// The number of statements: the statement itself and all that stand in it, `do` among them.
#[cycle(statements)]
pub fn statements(statement: &Statement) -> u64
    requires { spec_of_statements.statements statement.now < 2 ^ 64 }
    ensures { result ≡ spec_of_statements.statements statement.now }
{
    match statement {
        Statement::If {
            arms,
            otherwise,
            ..
        } => statements_in_arms(arms.as_slice()) + statements_in(otherwise.as_slice()) + 1,
        Statement::Case {
            alternatives,
            otherwise,
            ..
        } => {
            let chosen = statements_in_alternatives(alternatives.as_slice());
            chosen + statements_in(otherwise.as_slice()) + 1
        }
        Statement::Forall { body, .. } | Statement::While { body, .. } => {
            statements(body.get()) + 1
        }
        Statement::Repeat { body, .. } | Statement::Do { body, .. } => {
            statements_in(body.as_slice()) + 1
        }
        Statement::Assign { .. } | Statement::Fill { .. } | Statement::Call { .. } => 1,
        Statement::Break { .. } | Statement::Next { .. } => 1,
        Statement::Initializations { .. } => 1,
    }
}

#[cycle(statements)]
fn statements_in(all: &[Statement]) -> u64
    requires { spec_of_statements.statements_in all.now < 2 ^ 64 }
    ensures { result ≡ spec_of_statements.statements_in all.now }
{
    let mut sum = 0;
    for statement in all {
        sum += statements(statement);
    }
    sum
}

#[cycle(statements)]
fn statements_in_arms(arms: &[Arm<Statement>]) -> u64
    requires { spec_of_statements.statements_in_arms arms.now < 2 ^ 64 }
    ensures { result ≡ spec_of_statements.statements_in_arms arms.now }
{
    let mut sum = 0;
    for arm in arms {
        for statement in arm.body.as_slice() {
            sum += statements(statement);
        }
    }
    sum
}

#[cycle(statements)]
fn statements_in_alternatives(all: &[Alternative<Statement>]) -> u64
    requires { spec_of_statements.statements_in_alternatives all.now < 2 ^ 64 }
    ensures { result ≡ spec_of_statements.statements_in_alternatives all.now }
{
    let mut sum = 0;
    for alternative in all {
        sum += statements(&alternative.body);
    }
    sum
}
