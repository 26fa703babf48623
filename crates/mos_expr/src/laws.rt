//! Laws of expressions, as contracts of calls that do nothing.
ghost use Rattle.mos_expr.specs.Laws.{HaveOneTree, HaveOneList, HaveOneIndex};
ghost use Rattle.mos_expr.specs.Sizes.{ExpressionIsSmall, ExpressionsAreSmall, IndexIsSmall};

/// Words have at most one tree, or are too high in each way that they are spelled.
pub fn words_have_one_tree()
    ensures one { HaveOneTree }
    ensures list { HaveOneList }
    ensures index { HaveOneIndex }
{}

/// A tree has no more nodes than its words are many.
pub fn trees_are_small()
    ensures one { ExpressionIsSmall }
    ensures list { ExpressionsAreSmall }
    ensures index { IndexIsSmall }
{}
