//! Laws of sources, as contracts of calls that do nothing.
ghost use Rattle.mos_source.specs.Laws.{HaveOneTree, HaveOneFault, HaveNotBoth, HaveOneOfBoth};
ghost use Rattle.mos_source.specs.Laws.{AlternativesDiffer, ProductionsReadOneWay};
ghost use Rattle.mos_source.specs.Laws.{ProductionsTakeSources, ProductionsTakeNothingElse};
ghost use Rattle.mos_source.specs.Laws.{ProductionsBreak, ProductionsBreakThere};

/// Pieces have at most one tree and at most one faulty piece, always one of both and never both.
pub fn pieces_are_read_one_way()
    ensures one_tree { HaveOneTree }
    ensures one_fault { HaveOneFault }
    ensures not_both { HaveNotBoth }
    ensures one_of_both { HaveOneOfBoth }
{}

/// The productions of the grammar, each read with the number of blocks that are open, take the
/// sources and nothing else, and the first piece that they cannot take is the faulty one.
pub fn pieces_break_by_productions()
    ensures differ { AlternativesDiffer }
    ensures one_way { ProductionsReadOneWay }
    ensures takes { ProductionsTakeSources }
    ensures takes_only { ProductionsTakeNothingElse }
    ensures breaks { ProductionsBreak }
    ensures breaks_only { ProductionsBreakThere }
{}
