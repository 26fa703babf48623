//! Names that are not known where they are used.
ghost use Rattle.std.specs.Prelude.{◌≡◌, option_copied};
ghost use Rattle.mos_check.specs.Names.{unless_known, unknown_in, unknown_in_all, unknown_target};

use mos_names::Names;
use mos_text::{SourceText, Text};
use mos_tree::{Assignment, Expr, Reference};

/// The first name of an expression, from the left, that is not known.
pub(crate) fn unknown_in<'a>(known: &Names<'_>, written: &'a Expr) -> Option<&'a Text>
    ensures { option_copied result ≡ unknown_in written.now known.now }
{
    match written {
        Expr::Name(name) => unless_known(known, name),
        Expr::Binary(_, left, right) => match unknown_in(known, left.get()) {
            Some(name) => Some(name),
            None => unknown_in(known, right.get()),
        },
        _ => None,
    }
}

/// The first name of several expressions, from the left, that is not known.
pub(crate) fn unknown_in_all<'a>(known: &Names<'_>, all: &'a [Expr]) -> Option<&'a Text>
    ensures { option_copied result ≡ unknown_in_all all.now known.now }
{
    for written in all {
        if let Some(name) = unknown_in(known, written) {
            return Some(name);
        }
    }
    None
}

/// The variable that `+=` or `-=` changes, if it is not known.
pub(crate) fn unknown_target<'a>(
    known: &Names<'_>,
    target: &'a Reference,
    operator: Assignment,
) -> Option<&'a Text>
    ensures { option_copied result ≡ unknown_target target.now operator known.now }
{
    match (target, operator) {
        (Reference::Name(_), Assignment::Set) => None,
        (Reference::Name(name), _) => unless_known(known, name),
        _ => None,
    }
}

fn unless_known<'a>(known: &Names<'_>, name: &'a SourceText) -> Option<&'a Text>
    ensures { option_copied result ≡ unless_known known.now name.now }
{
    if known.has(name.text()) {
        None
    } else {
        Some(name.text())
    }
}
