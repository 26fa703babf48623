//! What a name of a checked tree stands for.
ghost use Rattle.std.specs.Prelude.{◌≡◌, not, option_copied, option_map};
ghost use Rattle.mos_checked.specs.Named as spec;
ghost use Rattle.mos_sorts.specs.Sorts.{is_scalar};

use crate::{CheckedRoutine, Constant, Parameter, Variable};
use mos_sorts::fits::is_scalar;
use mos_sorts::names::same_name;
use mos_sorts::{Sort, Value};
use mos_text::SourceText;

/// The routine of this name.
pub fn routine_named<'a>(all: &'a [CheckedRoutine], name: &SourceText) -> Option<&'a CheckedRoutine>
    ensures { option_copied result ≡ spec.routine_named name.now all.now }
{
    for routine in all {
        if same_name(name, &routine.name) {
            return Some(routine);
        }
    }
    None
}

/// The value of the constant of this name.
pub fn constant_named<'a>(all: &'a [Constant], name: &SourceText) -> Option<&'a Value>
    ensures { option_copied result ≡ spec.constant_named name.now all.now }
{
    for constant in all {
        if same_name(name, &constant.name) {
            return Some(&constant.value);
        }
    }
    None
}

/// The value that the parameter of this name has where none is given.
pub fn default_named<'a>(all: &'a [Parameter], name: &SourceText) -> Option<&'a Value>
    ensures { option_copied result ≡ spec.default_named name.now all.now }
{
    for parameter in all {
        if same_name(name, &parameter.name) {
            return Some(&parameter.default);
        }
    }
    None
}

/// The type of the formal or variable of this name.
pub fn sort_named(all: &[Variable], name: &SourceText) -> Option<Sort>
    ensures { result ≡ spec.sort_named name.now all.now }
{
    for variable in all {
        if same_name(name, &variable.name) {
            return Some(variable.sort);
        }
    }
    None
}

/// Whether an argument for a formal of this type is passed by its place: it is a set, a list, a range, an array or a
/// record.
pub fn passed_by_place(sort: Sort) -> bool
    ensures { result ≡ not (is_scalar sort) }
{
    !is_scalar(sort)
}
