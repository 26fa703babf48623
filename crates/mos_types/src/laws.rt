//! A law of typed trees: a function that does nothing, whose contract it is.
ghost use Rattle.mos_types.specs.Whole.{TypedTreesAreWhole, TypedRowsAreWhole, TypedIndexesAreWhole, TypedAssignmentsAreWhole, TypedCallsAreWhole, TypedFillsAreWhole, TypedValuesAreWhole};

/// Where no rule is broken, each expression in a tree has a type.
pub fn typed_trees_are_whole()
    ensures expressions { TypedTreesAreWhole }
    ensures rows { TypedRowsAreWhole }
    ensures indexes { TypedIndexesAreWhole }
    ensures assignments { TypedAssignmentsAreWhole }
    ensures calls { TypedCallsAreWhole }
    ensures fills { TypedFillsAreWhole }
    ensures values { TypedValuesAreWhole }
{}
