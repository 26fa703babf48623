//! Whether the parts of two array or record types are the same.
ghost use Rattle.std.specs.Prelude.{◌≡◌};
ghost use Rattle.std.specs.Str.{bytes_eq};
ghost use Rattle.mos_sorts.specs.Sorts.{same_member, same_sort};
ghost use Rattle.mos_written.specs.Tables as spec;

use mos_sorts::fits::{same_member, same_sort};
use mos_sorts::names::same_name;
use mos_sorts::{ArraySort, RecordSort, Sort};
use mos_text::SourceText;
use mos_value::MemberType;

fn same_indexes(a: &[MemberType], b: &[MemberType]) -> bool
    ensures { result ≡ spec.all_same same_member a.now b.now }
{
    let mut rest = b;
    for index in a {
        let Some((other, others)) = rest.split_first() else {
            return false;
        };
        if !same_member(*index, *other) {
            return false;
        }
        rest = others;
    }
    rest.is_empty()
}

fn same_sorts(a: &[Sort], b: &[Sort]) -> bool
    ensures { result ≡ spec.all_same same_sort a.now b.now }
{
    let mut rest = b;
    for sort in a {
        let Some((other, others)) = rest.split_first() else {
            return false;
        };
        if !same_sort(*sort, *other) {
            return false;
        }
        rest = others;
    }
    rest.is_empty()
}

fn same_names(a: &[SourceText], b: &[SourceText]) -> bool
    ensures { result ≡ spec.all_same bytes_eq a.now b.now }
{
    let mut rest = b;
    for name in a {
        let Some((other, others)) = rest.split_first() else {
            return false;
        };
        if !same_name(name, other) {
            return false;
        }
        rest = others;
    }
    rest.is_empty()
}

/// Whether two array types have the same parts.
pub(crate) fn same_array(a: &ArraySort, b: &ArraySort) -> bool
    ensures { result ≡ spec.same_array a.now b.now }
{
    a.dynamic == b.dynamic
        && (same_indexes(a.indexes.as_slice(), b.indexes.as_slice()) && same_sort(a.cell, b.cell))
}

/// Whether two record types have the same fields in the same order.
pub(crate) fn same_record(a: &RecordSort, b: &RecordSort) -> bool
    ensures { result ≡ spec.same_record a.now b.now }
{
    same_names(a.names.as_slice(), b.names.as_slice())
        && same_sorts(a.sorts.as_slice(), b.sorts.as_slice())
}
