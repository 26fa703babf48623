//! Laws of tokens and pieces, as contracts of calls that do nothing.
ghost use Rattle.mos_scan.specs.Laws.{OneTokenList, OneLexicalFault, ListOrFault, SomeListOrFault, OneListOfPieces, SomeListOfPieces};

/// A source has one token list or one lexical fault, never both, never neither.
pub fn source_is_scanned_once()
    ensures tokens { OneTokenList }
    ensures fault { OneLexicalFault }
    ensures apart { ListOrFault }
    ensures some { SomeListOrFault }
{}

/// Tokens are cut into pieces in one way.
pub fn tokens_are_cut_once()
    ensures one { OneListOfPieces }
    ensures some { SomeListOfPieces }
{}
