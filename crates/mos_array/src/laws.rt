//! What a user of arrays may count on: functions that do nothing but cite, whose contracts are laws.
ghost use Rattle.mos_array.specs.Laws.{WrittenIsRead, OthersStay, OrderStays, DenseStays, RangeIsOutside, RangeIsOutsideToo, LastIsFastest};

use mos_value::laws::laws_of_sets;

/// What a cell holds after it, or another one, was written.
pub fn laws_of_writing()
    ensures written_is_read { WrittenIsRead }
    ensures others_stay { OthersStay }
{
    laws_of_sets();
}

/// Which cells there are, in which order, and where RANGE comes.
pub fn laws_of_places()
    ensures order_stays { OrderStays }
    ensures dense_stays { DenseStays }
    ensures range_is_outside { RangeIsOutside }
    ensures range_is_outside_too { RangeIsOutsideToo }
    ensures last_is_fastest { LastIsFastest }
{}
