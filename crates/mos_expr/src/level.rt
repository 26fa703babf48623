//! How tightly operators bind.
ghost use Rattle.std.specs.Prelude.{◌≡◌};
ghost use Rattle.mos_expr.specs.Grammar as grammar;

use mos_tree::{AggregateOperator, BinaryOperator, UnaryOperator};

/// The level of a prefix operator, and of the loosest operand that it takes.
pub(crate) fn level_before(op: UnaryOperator) -> u32
    ensures { result ≡ grammar.level_before op }
{
    match op {
        UnaryOperator::Minus | UnaryOperator::Plus => 2,
        UnaryOperator::Not => 7,
    }
}

/// The level of an operator; the smaller binds tighter.
pub(crate) fn binds(op: BinaryOperator) -> u32
    ensures { result ≡ grammar.binds op }
{
    match op {
        BinaryOperator::Times | BinaryOperator::Div | BinaryOperator::Mod | BinaryOperator::Inter =>
            3,
        BinaryOperator::Plus | BinaryOperator::Minus | BinaryOperator::Union => 4,
        BinaryOperator::Range => 5,
        BinaryOperator::And => 8,
        BinaryOperator::Or => 9,
        _ => 6,
    }
}

/// The loosest left operand: of its own level, or tighter where at most one stands at a level.
pub(crate) fn left_of(op: BinaryOperator) -> u32
    ensures { result ≡ grammar.left_of op }
{
    let level = binds(op);
    if level == 5 || level == 6 {
        return level.saturating_sub(1);
    }
    level
}

/// The loosest right operand.
pub(crate) fn right_of(op: BinaryOperator) -> u32
    ensures { result ≡ grammar.right_of op }
{
    binds(op).saturating_sub(1)
}

/// The loosest body of an aggregate.
pub(crate) fn level_body(op: AggregateOperator) -> u32
    ensures { result ≡ grammar.level_body op }
{
    match op {
        AggregateOperator::And | AggregateOperator::Or => 6,
        _ => 3,
    }
}
