//! The sizes of expressions.
ghost use Rattle.std.specs.Prelude.{◌≡◌, ◌*◌, map};
ghost use Rattle.mos_tree.specs.Children.{in_group};
ghost use Rattle.mos_sizes.specs.SizeCounts as spec;
ghost use Rattle.mos_sizes.specs.SizeCounts.{capped};

use mos_tree::{Expr, Group, Index};

/// A number once for each of so many.
pub(crate) fn each(number: u64, count: usize) -> u64
    ensures { result ≡ capped (number * count) }
{
    number.saturating_mul(count as u64)
}

/// An expression.
#[cycle(exprs)]
pub(crate) fn expr(x: &Expr) -> u64
    ensures { result ≡ capped (spec.expr_size x.now) }
{
    match x {
        Expr::Integer(_) | Expr::Text(_) | Expr::Truth(_) | Expr::Name(_) => 16,
        Expr::Returned | Expr::Field(_, _) => 16,
        Expr::Call(_, all) | Expr::CallField(_, all, _) => {
            exprs(all.as_slice()).saturating_add(16)
        }
        Expr::Set(all) | Expr::List(all) => exprs(all.as_slice()).saturating_add(16),
        Expr::If(a, b, c) => {
            let both = expr(a.get()).saturating_add(expr(b.get()));
            both.saturating_add(expr(c.get())).saturating_add(16)
        }
        Expr::Convert(_, a) | Expr::Unary(_, a) => expr(a.get()).saturating_add(16),
        Expr::Binary(_, a, b) => {
            let both = expr(a.get()).saturating_add(expr(b.get()));
            both.saturating_add(16)
        }
        Expr::Aggregate(_, index, body) => {
            let groups = groups(index.groups.as_slice());
            let inside = groups.saturating_add(expr(body.get()));
            match &index.condition {
                None => inside.saturating_add(16),
                Some(condition) => inside
                    .saturating_add(expr(condition.get()))
                    .saturating_add(16),
            }
        }
        Expr::Count(index) => {
            let groups = groups(index.groups.as_slice());
            match &index.condition {
                None => groups.saturating_add(16),
                Some(condition) => groups
                    .saturating_add(expr(condition.get()))
                    .saturating_add(16),
            }
        }
    }
}

/// Several expressions.
#[cycle(exprs)]
pub(crate) fn exprs(all: &[Expr]) -> u64
    ensures { result ≡ capped (spec.exprs_size all.now) }
{
    let mut size = 0_u64;
    for x in all {
        size = size.saturating_add(expr(x));
    }
    size
}

/// Groups of index names.
#[cycle(exprs)]
fn groups(all: &[Group<Expr>]) -> u64
    ensures { result ≡ capped (spec.groups_size (map (in_group spec.expr_size) all.now)) }
{
    let mut size = 0_u64;
    for x in all {
        let names = each(24, x.names.len());
        size = size
            .saturating_add(expr(&x.set))
            .saturating_add(16)
            .saturating_add(names);
    }
    size
}

/// What a loop goes over.
pub(crate) fn index(x: &Index<Expr>) -> u64
    ensures { result ≡ capped (spec.loop_size x.now) }
{
    let groups = groups(x.groups.as_slice());
    match &x.condition {
        None => groups,
        Some(condition) => groups.saturating_add(expr(condition.get())),
    }
}
