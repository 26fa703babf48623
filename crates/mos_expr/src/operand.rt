//! What has been read of an operand, and the operand that an operator makes of its own.
ghost use Rattle.std.specs.Prelude.{◌≡◌, IfOk, Some};
ghost use Rattle.mos_expr.specs.Operands as spec;

use crate::building::{both, boxed};
use crate::level::{binds, level_before};
use mos_text::{NoMemory, let_go};
use mos_tree::{AggregateOperator, BinaryOperator, Conversion, Expr, Group, Index, UnaryOperator};
use sqlite_items::{Boxed, Items};
use std::alloc::Global;

/// What has been read of an operand: how loosely it binds, how high it is, up to 501, and its tree,
/// unless it is too high.
#[derive(Drop)]
pub(crate) struct Operand {
    pub level: u32,
    pub height: u32,
    pub expr: Option<Expr>,
}

/// What stands between brackets, so far.
#[derive(Drop)]
pub(crate) struct Parts {
    pub height: u32,
    pub items: Option<Items<Expr>>,
}

/// The sets of an index, so far.
#[derive(Drop)]
pub(crate) struct Groups {
    pub height: u32,
    pub items: Option<Items<Group<Expr>>>,
}

/// A whole index.
#[derive(Drop)]
pub(crate) struct WholeIndex {
    pub height: u32,
    pub index: Option<Index<Expr>>,
}

/// The height of a node over a part of this height.
pub(crate) fn higher(height: u32) -> u32
    ensures { result ≡ spec.higher height }
{
    height.saturating_add(1).min(501)
}

/// The tree, unless it is too high.
pub(crate) fn keep(height: u32, expr: Option<Expr>) -> Option<Expr>
    ensures { result ≡ spec.unless_deep height expr }
{
    if height <= 500 {
        return expr;
    }
    let_go(expr);
    None
}

/// An operand without parts.
pub(crate) fn leaf_of(expr: Expr) -> Operand
    ensures { result ≡ spec.leaf_of expr }
{
    Operand {
        level: 1,
        height: 1,
        expr: Some(expr),
    }
}

/// An operand of this level, one higher than its parts.
fn node_at(level: u32, height: u32, expr: Option<Expr>) -> Operand
    ensures { result ≡ spec.node_at level height expr }
{
    let height = higher(height);
    Operand {
        level,
        height,
        expr: keep(height, expr),
    }
}

/// An operand that binds tightest, one higher than its parts.
pub(crate) fn node(height: u32, expr: Option<Expr>) -> Operand
    ensures { result ≡ spec.node height expr }
{
    node_at(1, height, expr)
}

/// An operand in brackets.
pub(crate) fn bracket_of(operand: Operand) -> Operand
    ensures { result ≡ spec.bracket_of operand }
{
    node(operand.height, operand.expr)
}

fn unary(alloc: Global, op: UnaryOperator, part: Option<Expr>) -> Result<Option<Expr>, NoMemory>
    ensures { IfOk result (λ made. made ≡ spec.map1 (spec.unary op) part) }
{
    match part {
        None => Ok(None),
        Some(part) => match boxed(alloc, part, ()) {
            Ok((part, _)) => Ok(Some(Expr::Unary(op, part))),
            Err(refused) => Err(refused),
        },
    }
}

/// A prefix operator and its operand.
pub(crate) fn before_of(
    alloc: Global,
    op: UnaryOperator,
    operand: Operand,
) -> Result<Operand, NoMemory>
    ensures { IfOk result (λ made. made ≡ spec.before_of op operand) }
{
    let height = operand.height;
    match unary(alloc, op, operand.expr) {
        Ok(made) => Ok(node_at(level_before(op), height, made)),
        Err(refused) => Err(refused),
    }
}

fn convert_expr(alloc: Global, to: Conversion, part: Option<Expr>) -> Result<Option<Expr>, NoMemory>
    ensures { IfOk result (λ made. made ≡ spec.map1 (spec.convert_expr to) part) }
{
    match part {
        None => Ok(None),
        Some(part) => match boxed(alloc, part, ()) {
            Ok((part, _)) => Ok(Some(Expr::Convert(to, part))),
            Err(refused) => Err(refused),
        },
    }
}

/// A conversion.
pub(crate) fn convert_of(
    alloc: Global,
    to: Conversion,
    operand: Operand,
) -> Result<Operand, NoMemory>
    ensures { IfOk result (λ made. made ≡ spec.convert_of to operand) }
{
    let height = operand.height;
    match convert_expr(alloc, to, operand.expr) {
        Ok(made) => Ok(node(height, made)),
        Err(refused) => Err(refused),
    }
}

fn binary_over(
    alloc: Global,
    op: BinaryOperator,
    left: Boxed<Expr>,
    right: Expr,
) -> Result<Option<Expr>, NoMemory>
    ensures { IfOk result (λ made. made ≡ Some (spec.binary op left right)) }
{
    match boxed(alloc, right, left) {
        Ok((right, left)) => Ok(Some(Expr::Binary(op, left, right))),
        Err(refused) => Err(refused),
    }
}

fn binary(
    alloc: Global,
    op: BinaryOperator,
    parts: Option<(Expr, Expr)>,
) -> Result<Option<Expr>, NoMemory>
    ensures { IfOk result (λ made. made ≡ spec.map1 (λ p. spec.binary op p.0 p.1) parts) }
{
    match parts {
        None => Ok(None),
        Some((left, right)) => match boxed(alloc, left, right) {
            Ok((left, right)) => binary_over(alloc, op, left, right),
            Err(refused) => Err(refused),
        },
    }
}

/// An operator between its operands.
pub(crate) fn between_of(
    alloc: Global,
    op: BinaryOperator,
    a: Operand,
    b: Operand,
) -> Result<Operand, NoMemory>
    ensures { IfOk result (λ made. made ≡ spec.between_of op a b) }
{
    let height = a.height.max(b.height);
    match binary(alloc, op, both(a.expr, b.expr)) {
        Ok(made) => Ok(node_at(binds(op), height, made)),
        Err(refused) => Err(refused),
    }
}

fn if_over(alloc: Global, a: Boxed<Expr>, b: Boxed<Expr>, c: Expr) -> Result<Option<Expr>, NoMemory>
    ensures { IfOk result (λ made. made ≡ Some (spec.if_expr a b c)) }
{
    match boxed(alloc, c, (a, b)) {
        Ok((c, (a, b))) => Ok(Some(Expr::If(a, b, c))),
        Err(refused) => Err(refused),
    }
}

fn if_second(alloc: Global, a: Boxed<Expr>, b: Expr, c: Expr) -> Result<Option<Expr>, NoMemory>
    ensures { IfOk result (λ made. made ≡ Some (spec.if_expr a b c)) }
{
    match boxed(alloc, b, (a, c)) {
        Ok((b, (a, c))) => if_over(alloc, a, b, c),
        Err(refused) => Err(refused),
    }
}

fn if_expr(alloc: Global, parts: Option<(Expr, (Expr, Expr))>) -> Result<Option<Expr>, NoMemory>
    ensures { IfOk result (λ made. made ≡ spec.map1 (λ p. spec.if_expr p.0 p.1.0 p.1.1) parts) }
{
    match parts {
        None => Ok(None),
        Some((a, (b, c))) => match boxed(alloc, a, (b, c)) {
            Ok((a, (b, c))) => if_second(alloc, a, b, c),
            Err(refused) => Err(refused),
        },
    }
}

/// `if` with its three parts.
pub(crate) fn if_expr_of(
    alloc: Global,
    a: Operand,
    b: Operand,
    c: Operand,
) -> Result<Operand, NoMemory>
    ensures { IfOk result (λ made. made ≡ spec.if_expr_of a b c) }
{
    let height = a.height.max(b.height.max(c.height));
    match if_expr(alloc, both(a.expr, both(b.expr, c.expr))) {
        Ok(made) => Ok(node(height, made)),
        Err(refused) => Err(refused),
    }
}

fn aggregate(
    alloc: Global,
    op: AggregateOperator,
    parts: Option<(Index<Expr>, Expr)>,
) -> Result<Option<Expr>, NoMemory>
    ensures { IfOk result (λ made. made ≡ spec.map1 (λ p. spec.aggregate op p.0 p.1) parts) }
{
    match parts {
        None => Ok(None),
        Some((index, body)) => match boxed(alloc, body, index) {
            Ok((body, index)) => Ok(Some(Expr::Aggregate(op, index, body))),
            Err(refused) => Err(refused),
        },
    }
}

/// An aggregate with its index and its body.
pub(crate) fn aggregate_of(
    alloc: Global,
    op: AggregateOperator,
    index: WholeIndex,
    operand: Operand,
) -> Result<Operand, NoMemory>
    ensures { IfOk result (λ made. made ≡ spec.aggregate_of op index operand) }
{
    let height = index.height.max(operand.height);
    match aggregate(alloc, op, both(index.index, operand.expr)) {
        Ok(made) => Ok(node(height, made)),
        Err(refused) => Err(refused),
    }
}
