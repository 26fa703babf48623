//! What is expected of values in a row.
use mos_sorts::Sort;
use mos_value::MemberType;

/// What is expected of values in a row.
#[derive(Clone, Copy)]
pub enum Expected<'a> {
    /// Nothing.
    Plain,
    /// Values that are printed: each becomes its printed form.
    Printed,
    /// Sets: a range becomes one.
    AsSets,
    /// The options, the source and the image of `compile`.
    Files,
    /// Arguments for formals of these types.
    Formals(&'a [Sort]),
    /// Indexes of these types.
    Indexes(&'a [MemberType]),
    /// Values for cells of this type.
    Cells(Sort),
    /// Labels of `case` on a value of this type.
    Labels(Sort),
}
