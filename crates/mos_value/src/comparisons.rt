//! Comparisons of values without parts.
ghost use Rattle.std.specs.Prelude.{◌≡◌, ◌↔◌, IsTrue};
ghost use Rattle.mos_value.specs.Comparisons.{text_order, text_below, order_of, of_one_kind, same_value};
ghost use Rattle.mos_value.specs.Same.{is_same};
ghost use Rattle.mos_value.specs.ScalarLaws.{NoTextIsBelowItself, TextsHaveAnOrder, BelowIsTransitive};

use mos_text::{Scalar, Text};
use std::cmp::Ordering;

/// Whether the bytes of `a` come before those of `b`: `<` on texts.
pub fn text_below(a: &Text, b: &Text) -> bool
    ensures { result ≡ text_below a.now b.now }
{
    text_order(a, b).is_lt()
}

/// How two integers or two texts are ordered; values of other kinds, or of two kinds, have no order.
pub fn order_of(a: &Scalar, b: &Scalar) -> Option<Ordering>
    ensures { result ≡ order_of a.now b.now }
{
    match (a, b) {
        (Scalar::Int(a), Scalar::Int(b)) => Some(a.cmp(b)),
        (Scalar::Str(a), Scalar::Str(b)) => Some(text_order(a, b)),
        _ => None,
    }
}

fn text_order(a: &Text, b: &Text) -> Ordering
    ensures { result ≡ text_order a.now b.now }
{
    a.as_bytes().cmp(b.as_bytes())
}

/// Whether two values are the same: `=`. Values of two kinds never are.
pub fn same_one(a: &Scalar, b: &Scalar) -> bool
    ensures value { result ≡ is_same a.now b.now }
    ensures equal { IsTrue result ↔ (a.now ≡ b.now) }
{
    is_same(a, b)
}

fn is_same(a: &Scalar, b: &Scalar) -> bool
    ensures { result ≡ is_same a.now b.now }
{
    match (a, b) {
        (Scalar::Int(a), Scalar::Int(b)) => a == b,
        (Scalar::Bool(a), Scalar::Bool(b)) => a == b,
        (Scalar::Str(a), Scalar::Str(b)) => a.as_bytes() == b.as_bytes(),
        (Scalar::Model(a), Scalar::Model(b)) => a == b,
        (Scalar::Event(a, m), Scalar::Event(b, n)) => a == b && m == n,
        _ => false,
    }
}

/// Whether two values of one kind are the same; of two kinds it is not asked.
pub fn same_value(a: &Scalar, b: &Scalar) -> Option<bool>
    ensures { result ≡ same_value a.now b.now }
{
    if of_one_kind(a, b) {
        Some(is_same(a, b))
    } else {
        None
    }
}

fn of_one_kind(a: &Scalar, b: &Scalar) -> bool
    ensures { result ≡ of_one_kind a.now b.now }
{
    match (a, b) {
        (Scalar::Int(_), Scalar::Int(_)) => true,
        (Scalar::Bool(_), Scalar::Bool(_)) => true,
        (Scalar::Str(_), Scalar::Str(_)) => true,
        (Scalar::Model(_), Scalar::Model(_)) => true,
        (Scalar::Event(_, _), Scalar::Event(_, _)) => true,
        _ => false,
    }
}

/// The order of texts is total.
pub fn text_order_laws()
    ensures irreflexive { NoTextIsBelowItself }
    ensures total { TextsHaveAnOrder }
    ensures transitive { BelowIsTransitive }
{}
