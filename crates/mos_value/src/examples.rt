//! Worked examples of the definitions: functions that do nothing, whose contracts they are.
ghost use Rattle.mos_value.specs.Examples.{LeastInteger, SevenByTwo, LeastByMinusOne, TextsCompare, RangeMembers, ShownTruth, OperatorsOnSets, SetOfAList, SameInAnyOrder};

/// What a few operators answer.
pub fn answers_of_operators()
    ensures least_integer { LeastInteger }
    ensures seven_by_two { SevenByTwo }
    ensures least_by_minus_one { LeastByMinusOne }
    ensures texts_compare { TextsCompare }
    ensures range_members { RangeMembers }
    ensures shown_truth { ShownTruth }
{}

/// What a few operators on sets make.
pub fn answers_of_set_operators()
    ensures operators_on_sets { OperatorsOnSets }
    ensures set_of_a_list { SetOfAList }
    ensures same_in_any_order { SameInAnyOrder }
{}
