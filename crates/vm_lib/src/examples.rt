//! Worked examples of the definitions: functions that do nothing, whose contracts they are.
ghost use Rattle.vm_lib.specs.Examples.{OnIntegers, OnLists, OnEnds, OnNumerals, OnPrintedForms, OnSameness, OnOperators};

/// What a few functions answer.
pub fn answers_of_functions()
    ensures on_integers { OnIntegers }
    ensures on_lists { OnLists }
    ensures on_ends { OnEnds }
    ensures on_numerals { OnNumerals }
    ensures on_printed_forms { OnPrintedForms }
{}

/// What comes of a few operators.
pub fn answers_of_operators()
    ensures on_sameness { OnSameness }
    ensures on_operators { OnOperators }
{}
