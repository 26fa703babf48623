//! What an expression is, as far as expressions can be run.
ghost use Rattle.std.specs.Prelude.{◌≡◌};
ghost use Rattle.mos_check.specs.Forms.{form_of, form_of_binary};

use mos_tree::{BinaryOperator, Expr};

/// What an expression is.
#[derive(Clone, Copy, Debug, PartialEq, Drop)]
pub enum Form {
    /// Literals and names with `+` and `-` between them.
    Sum,
    /// A text literal.
    Text,
    /// `true`, `false`, or two sums with a comparison between them.
    Condition,
    /// Anything else.
    Other,
}

/// What this expression is.
pub fn form_of(written: &Expr) -> Form
    ensures { result ≡ form_of written.now }
{
    match written {
        Expr::Integer(_) | Expr::Name(_) => Form::Sum,
        Expr::Text(_) => Form::Text,
        Expr::Truth(_) => Form::Condition,
        Expr::Binary(operator, left, right) => {
            form_of_binary(*operator, form_of(left.get()), form_of(right.get()))
        }
        _ => Form::Other,
    }
}

fn form_of_binary(operator: BinaryOperator, left: Form, right: Form) -> Form
    ensures { result ≡ form_of_binary operator left right }
{
    if left != Form::Sum || right != Form::Sum {
        return Form::Other;
    }
    match operator {
        BinaryOperator::Plus | BinaryOperator::Minus => Form::Sum,
        BinaryOperator::Equal | BinaryOperator::NotEqual => Form::Condition,
        BinaryOperator::Less | BinaryOperator::AtMost => Form::Condition,
        BinaryOperator::Greater | BinaryOperator::AtLeast => Form::Condition,
        _ => Form::Other,
    }
}
