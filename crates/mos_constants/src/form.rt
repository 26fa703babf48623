//! Which expressions have the form of a constant one.
ghost use Rattle.std.specs.Prelude.{◌≡◌};
ghost use Rattle.mos_constants.specs.Forms as spec;

use mos_sorts::names::declared_as;
use mos_sorts::{Role, Scope};
use mos_text::SourceText;
use mos_tree::Expr;

/// Whether the name is that of a constant.
fn names_constant(scope: &Scope, name: &SourceText) -> bool
    ensures { result ≡ spec.names_constant name.now scope.now }
{
    match declared_as(scope, name) {
        Some((_, Role::Constant(_, _))) => true,
        _ => false,
    }
}

/// Whether an expression has the form of a constant one: it is made of literals, constants, sets and
/// lists by operators.
#[cycle(form)]
pub fn has_constant_form(scope: &Scope, expr: &Expr) -> bool
    ensures { result ≡ spec.has_constant_form scope.now expr.now }
{
    match expr {
        Expr::Integer(_) | Expr::Text(_) | Expr::Truth(_) => true,
        Expr::Name(name) => names_constant(scope, name),
        Expr::Set(all) | Expr::List(all) => have_constant_form(scope, all.as_slice()),
        Expr::Unary(_, a) => has_constant_form(scope, a.get()),
        Expr::Binary(_, a, b) => {
            has_constant_form(scope, a.get()) && has_constant_form(scope, b.get())
        }
        _ => false,
    }
}

#[cycle(form)]
fn have_constant_form(scope: &Scope, all: &[Expr]) -> bool
    ensures { result ≡ spec.have_constant_form scope.now all.now }
{
    for expr in all {
        if !has_constant_form(scope, expr) {
            return false;
        }
    }
    true
}
