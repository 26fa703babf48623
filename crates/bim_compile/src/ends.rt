//! Where the code of a form ends that begins at an address.
ghost use Rattle.std.specs.Prelude.{◌≡◌, ◌≤◌, ◌<◌, ◌+◌, ◌*◌, ◌^◌, map};
ghost use Rattle.mos_meaning.specs.Syntax as meant;
ghost use Rattle.mos_meaning.specs.Sources.{expression, shown_of, core_of, core_of_top, block, block_of};
ghost use Rattle.bim_compile.specs.Built.{IsBuilt, AreBuilt, IsBuiltStatement, IsBuiltBlock};
ghost use Rattle.bim_compile.specs.Compiled.{expression_end, arguments_end, statement_end, block_end};
ghost use Rattle.bim_compile.specs.InSize.{IsSmall, AreSmall, IsSmallStatement, IsSmallBlock};
ghost use Rattle.bim_compile.specs.Sizes.{size_of, size_of_all, size_of_core, size_of_block};

use mos_text::SourceText;
use mos_tree::{Assignment, Expr, Reference, Statement, Top};

/// The address behind the code of an expression.
#[tactic(auto, using(crate::proofs::SmallForms::applied_small))]
pub(crate) fn end_of_expression(at: u32, written: &Expr) -> u32
    requires built { IsBuilt (expression written.now) }
    requires room { at + 5 * size_of (expression written.now) < 2 ^ 32 }
    ensures end { result ≡ expression_end at (expression written.now) }
    ensures within { result ≤ at + 5 * size_of (expression written.now) }
    ensures small { IsSmall (expression written.now) }
{
    match written {
        Expr::Integer(number) => end_of_number(at, *number),
        Expr::Text(text) => end_of_text(at, text),
        Expr::Truth(_) | Expr::Name(_) => at + 5,
        Expr::Binary(_, left, right) => {
            let middle = end_of_expression(at, left.get());
            end_of_expression(middle, right.get()) + 1
        }
        _ => unreachable!(),
    }
}

/// A literal has 32 bits.
fn end_of_number(at: u32, number: i32) -> u32
    requires { at + 5 < 2 ^ 32 }
    ensures end { result ≡ at + 5 }
    ensures small { IsSmall (meant.number number) }
{
    let _number = number;
    at + 5
}

/// A text of a source is not long.
fn end_of_text(at: u32, text: &SourceText) -> u32
    requires { at + 5 < 2 ^ 32 }
    ensures end { result ≡ at + 5 }
    ensures small { IsSmall (meant.text text.now) }
{
    let _bytes = text.as_bytes();
    at + 5
}

fn end_of_arguments(at: u32, all: &[Expr]) -> u32
    requires built { AreBuilt (shown_of (map expression all.now)) }
    requires room { at + 7 * size_of_all (shown_of (map expression all.now)) < 2 ^ 32 }
    ensures end { result ≡ arguments_end at (shown_of (map expression all.now)) }
    ensures within { result ≤ at + 7 * size_of_all (shown_of (map expression all.now)) }
    ensures small { AreSmall (shown_of (map expression all.now)) }
{
    let mut end = at;
    for written in all {
        end = end_of_expression(end, written) + 1 + 1;
    }
    end
}

/// The address behind the code of a statement.
#[tactic(auto, using(crate::proofs::SmallForms::procedure_small))]
#[cycle(ends)]
pub(crate) fn end_of_statement(at: u32, statement: &Statement) -> u32
    requires built { IsBuiltStatement (core_of statement.now) }
    requires room { at + 13 * size_of_core (core_of statement.now) < 2 ^ 32 }
    ensures end { result ≡ statement_end at (core_of statement.now) }
    ensures within { result ≤ at + 13 * size_of_core (core_of statement.now) }
    ensures small { IsSmallStatement (core_of statement.now) }
{
    match statement {
        Statement::Assign {
            target: Reference::Name(_),
            operator: Assignment::Set,
            value,
            ..
        } => end_of_expression(at + 1, value) + 5,
        Statement::Assign {
            target: Reference::Name(_),
            value,
            ..
        } => end_of_expression(at + 1, value) + 5 + 1 + 1 + 5,
        Statement::Call { arguments, .. } => end_of_arguments(at + 1, arguments.as_slice()) + 5 + 1,
        Statement::If {
            arms,
            otherwise,
            ..
        } => {
            let mut end = at + 1;
            for arm in arms.as_slice() {
                let body = end_of_expression(end, &arm.condition) + 5;
                end = end_of_block(body, arm.body.as_slice()) + 5;
            }
            end_of_block(end, otherwise.as_slice())
        }
        Statement::While {
            condition,
            body,
            ..
        } => {
            let test = end_of_statement(at + 1 + 5 + 1, body.get());
            end_of_expression(test, condition) + 5
        }
        Statement::Do { body, .. } => end_of_block(at, body.as_slice()),
        Statement::Break { .. } | Statement::Next { .. } => at + 1 + 5,
        _ => unreachable!(),
    }
}

/// The address behind the code of statements one after the other.
#[cycle(ends)]
pub(crate) fn end_of_block(at: u32, all: &[Statement]) -> u32
    requires built { IsBuiltBlock (block_of all.now) }
    requires room { at + 13 * size_of_block (block_of all.now) < 2 ^ 32 }
    ensures end { result ≡ block_end at (block_of all.now) }
    ensures within { result ≤ at + 13 * size_of_block (block_of all.now) }
    ensures small { IsSmallBlock (block_of all.now) }
{
    let mut end = at;
    for statement in all {
        end = end_of_statement(end, statement);
    }
    end
}

/// The address behind the code of the statements of a model.
pub(crate) fn end_of_tops(at: u32, tops: &[Top]) -> u32
    requires built { IsBuiltBlock (block (map core_of_top tops.now)) }
    requires room { at + 13 * size_of_block (block (map core_of_top tops.now)) < 2 ^ 32 }
    ensures end { result ≡ block_end at (block (map core_of_top tops.now)) }
    ensures within { result ≤ at + 13 * size_of_block (block (map core_of_top tops.now)) }
    ensures small { IsSmallBlock (block (map core_of_top tops.now)) }
{
    let mut end = at;
    for top in tops {
        end = end_of_top(end, top);
    }
    end
}

fn end_of_top(at: u32, top: &Top) -> u32
    requires built { IsBuiltStatement (core_of_top top.now) }
    requires room { at + 13 * size_of_core (core_of_top top.now) < 2 ^ 32 }
    ensures end { result ≡ statement_end at (core_of_top top.now) }
    ensures within { result ≤ at + 13 * size_of_core (core_of_top top.now) }
    ensures small { IsSmallStatement (core_of_top top.now) }
{
    match top {
        Top::Statement(statement) => end_of_statement(at, statement),
        _ => unreachable!(),
    }
}
