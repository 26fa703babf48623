//! What a user of the library may count on: functions that do nothing, whose contracts are laws.
ghost use Rattle.vm_lib.specs.Laws.{NoneIsBelow, LeastIsThere, NoneIsAbove, GreatestIsThere, HeadAndTailAreAll};

/// The least and the greatest of some integers.
pub fn laws_of_extremes()
    ensures none_is_below { NoneIsBelow }
    ensures least_is_there { LeastIsThere }
    ensures none_is_above { NoneIsAbove }
    ensures greatest_is_there { GreatestIsThere }
{}

/// Heads and tails of lists.
pub fn laws_of_parts()
    ensures { HeadAndTailAreAll }
{}
