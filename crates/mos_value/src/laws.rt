//! What a user of sets and ranges may count on: functions that do nothing, whose contracts are laws.
ghost use Rattle.mos_value.specs.Laws.{SameIsEqual, UnionHasJustBoth, UnionHasEachOnce, UnionKeepsOrder, InterHasJustCommon, InterHasEachOnce, MinusHasJustRest, MinusHasEachOnce, SetHasEachOnce, SetHasJustItems, SetStays, SameByMembers, RangeHasItsSize, RangeHasJustBetween};

/// Unions, intersections and differences of sets, and when two sets are the same.
pub fn laws_of_sets()
    ensures same_is_equal { SameIsEqual }
    ensures union_has_just_both { UnionHasJustBoth }
    ensures union_has_each_once { UnionHasEachOnce }
    ensures union_keeps_order { UnionKeepsOrder }
    ensures inter_has_just_common { InterHasJustCommon }
    ensures inter_has_each_once { InterHasEachOnce }
    ensures minus_has_just_rest { MinusHasJustRest }
    ensures minus_has_each_once { MinusHasEachOnce }
    ensures set_has_each_once { SetHasEachOnce }
    ensures set_has_just_items { SetHasJustItems }
    ensures set_stays { SetStays }
    ensures same_by_members { SameByMembers }
{}

/// Ranges as sets.
pub fn laws_of_ranges()
    ensures range_has_its_size { RangeHasItsSize }
    ensures range_has_just_between { RangeHasJustBetween }
{}
