//! Which operators there are on which types, and of which type their answers are.
ghost use Rattle.std.specs.Prelude.{◌≡◌};
ghost use Rattle.mos_sorts.specs.Operators as spec;

use crate::fits::{as_set, common, common_list, common_set, is_array, is_scalar, same_sort};
use crate::{Operation, Sort};
use mos_tree::{AggregateOperator, BinaryOperator, UnaryOperator};
use mos_value::MemberType;

/// What an operator does, and the type of its answer.
pub type Answer = Option<(Operation, Sort)>;

fn of_integers(operation: Operation, answer: Sort, a: Sort, b: Sort) -> Answer
    ensures { result ≡ spec.of_integers operation answer a b }
{
    match (a, b) {
        (Sort::Integer, Sort::Integer) => Some((operation, answer)),
        _ => None,
    }
}

fn of_texts(operation: Operation, answer: Sort, a: Sort, b: Sort) -> Answer
    ensures { result ≡ spec.of_texts operation answer a b }
{
    match (a, b) {
        (Sort::Text, Sort::Text) => Some((operation, answer)),
        _ => None,
    }
}

fn of_booleans(operation: Operation, a: Sort, b: Sort) -> Answer
    ensures { result ≡ spec.of_booleans operation a b }
{
    match (a, b) {
        (Sort::Boolean, Sort::Boolean) => Some((operation, Sort::Boolean)),
        _ => None,
    }
}

fn of_sets(operation: Operation, a: Sort, b: Sort) -> Answer
    ensures { result ≡ spec.of_sets operation a b }
{
    match common_set(a, b) {
        Some(sort) => Some((operation, sort)),
        None => None,
    }
}

fn of_lists(a: Sort, b: Sort) -> Answer
    ensures { result ≡ spec.of_lists a b }
{
    match common_list(a, b) {
        Some(sort) => Some((Operation::Chain, sort)),
        None => None,
    }
}

/// Whether `+` joins the values as texts.
fn joins(a: Sort, b: Sort) -> bool
    ensures { result ≡ spec.joins a b }
{
    match (a, b) {
        (Sort::Text, b) => is_scalar(b),
        (a, Sort::Text) => is_scalar(a),
        _ => false,
    }
}

/// `+` on two sets or two lists.
fn plus_of_parts(a: Sort, b: Sort) -> Answer
    ensures { result ≡ spec.plus_of_parts a b }
{
    match of_sets(Operation::Unite, a, b) {
        None => of_lists(a, b),
        found => found,
    }
}

fn plus(a: Sort, b: Sort) -> Answer
    ensures { result ≡ spec.plus a b }
{
    if joins(a, b) {
        return Some((Operation::Join, Sort::Text));
    }
    match of_integers(Operation::Add, Sort::Integer, a, b) {
        None => plus_of_parts(a, b),
        found => found,
    }
}

fn minus(a: Sort, b: Sort) -> Answer
    ensures { result ≡ spec.minus a b }
{
    match of_integers(Operation::Subtract, Sort::Integer, a, b) {
        None => of_sets(Operation::Without, a, b),
        found => found,
    }
}

fn of_equals(operation: Operation, a: Sort, b: Sort) -> Answer
    ensures { result ≡ spec.of_equals operation a b }
{
    match common(a, b) {
        Some(sort) if !is_array(sort) => Some((operation, Sort::Boolean)),
        _ => None,
    }
}

fn of_ordered(operation: Operation, a: Sort, b: Sort) -> Answer
    ensures { result ≡ spec.of_ordered operation a b }
{
    match of_integers(operation, Sort::Boolean, a, b) {
        None => of_texts(operation, Sort::Boolean, a, b),
        found => found,
    }
}

/// Whether a value can be in a set or range.
fn can_be_in(a: Sort, b: Sort) -> bool
    ensures { result ≡ spec.can_be_in a b }
{
    match (a, b) {
        (Sort::Integer, Sort::Range) => true,
        (Sort::Integer | Sort::Boolean | Sort::Text, Sort::EmptySet) => true,
        (Sort::Integer, Sort::Set(MemberType::Integer)) => true,
        (Sort::Boolean, Sort::Set(MemberType::Boolean)) => true,
        (Sort::Text, Sort::Set(MemberType::Str)) => true,
        _ => false,
    }
}

fn of_in(operation: Operation, a: Sort, b: Sort) -> Answer
    ensures { result ≡ spec.of_in operation a b }
{
    if can_be_in(a, b) {
        Some((operation, Sort::Boolean))
    } else {
        None
    }
}

/// What an operator between values of two types does, and the type of its answer.
pub fn binary_answer(operator: BinaryOperator, a: Sort, b: Sort) -> Answer
    ensures { result ≡ spec.binary_answer operator a b }
{
    match operator {
        BinaryOperator::Times => of_integers(Operation::Times, Sort::Integer, a, b),
        BinaryOperator::Div => of_integers(Operation::Div, Sort::Integer, a, b),
        BinaryOperator::Mod => of_integers(Operation::Mod, Sort::Integer, a, b),
        BinaryOperator::Inter => of_sets(Operation::Meet, a, b),
        BinaryOperator::Plus => plus(a, b),
        BinaryOperator::Minus => minus(a, b),
        BinaryOperator::Union => of_sets(Operation::Unite, a, b),
        BinaryOperator::Range => of_integers(Operation::Span, Sort::Range, a, b),
        BinaryOperator::Equal => of_equals(Operation::Equal, a, b),
        BinaryOperator::NotEqual => of_equals(Operation::NotEqual, a, b),
        BinaryOperator::Less => of_ordered(Operation::Less, a, b),
        BinaryOperator::AtMost => of_ordered(Operation::AtMost, a, b),
        BinaryOperator::Greater => of_ordered(Operation::Greater, a, b),
        BinaryOperator::AtLeast => of_ordered(Operation::AtLeast, a, b),
        BinaryOperator::In => of_in(Operation::In, a, b),
        BinaryOperator::NotIn => of_in(Operation::NotIn, a, b),
        BinaryOperator::And => of_booleans(Operation::And, a, b),
        BinaryOperator::Or => of_booleans(Operation::Or, a, b),
    }
}

/// Whether there is an operator before a value of this type.
pub fn has_unary(operator: UnaryOperator, sort: Sort) -> bool
    ensures { result ≡ spec.has_unary operator sort }
{
    match (operator, sort) {
        (UnaryOperator::Minus | UnaryOperator::Plus, Sort::Integer) => true,
        (UnaryOperator::Not, Sort::Boolean) => true,
        _ => false,
    }
}

/// The type of an aggregate with a body of this type.
pub fn aggregate_answer(operator: AggregateOperator, body: Sort) -> Option<Sort>
    ensures { result ≡ spec.aggregate_answer operator body }
{
    match (operator, body) {
        (AggregateOperator::Sum, Sort::Integer) => Some(Sort::Integer),
        (AggregateOperator::Prod, Sort::Integer) => Some(Sort::Integer),
        (AggregateOperator::Min, Sort::Integer) => Some(Sort::Integer),
        (AggregateOperator::Max, Sort::Integer) => Some(Sort::Integer),
        (AggregateOperator::And, Sort::Boolean) => Some(Sort::Boolean),
        (AggregateOperator::Or, Sort::Boolean) => Some(Sort::Boolean),
        (AggregateOperator::Union, body) => as_set(body),
        _ => None,
    }
}

fn keeps(sort: Sort, answer: Answer) -> Answer
    ensures { result ≡ spec.keeps sort answer }
{
    match answer {
        Some((operation, answer)) if same_sort(sort, answer) => Some((operation, answer)),
        _ => None,
    }
}

/// What `+=` does with a variable of the first type and a value of the second.
pub fn added(a: Sort, b: Sort) -> Answer
    ensures { result ≡ spec.plus_into a b }
{
    keeps(a, plus(a, b))
}

/// What `-=` does with a variable of the first type and a value of the second.
pub fn taken(a: Sort, b: Sort) -> Answer
    ensures { result ≡ spec.minus_from a b }
{
    keeps(a, minus(a, b))
}
