//! Laws of words, as contracts of calls that do nothing.
ghost use Rattle.mos_typing.specs.Laws.{TypeIsSmall, FormalsAreSmall, AreOneType, AreOneList};
ghost use Rattle.mos_typing.specs.PhraseWords.{SyntaxIsPlain, ListIsPlain, IndexIsPlain};

use mos_expr::{trees_are_small, words_have_one_tree};

/// No word that parts a piece stands in an expression, in expressions with commas between them, or in
/// an index.
pub fn expressions_have_plain_words()
    ensures one { SyntaxIsPlain }
    ensures list { ListIsPlain }
    ensures index { IndexIsPlain }
{}

/// The expressions in a type, and in formals, have no more nodes than the words are many.
pub fn types_are_small()
    ensures type_form { TypeIsSmall }
    ensures formals { FormalsAreSmall }
{
    trees_are_small();
}

/// Words are at most one type, and at most one list of formals.
pub fn words_are_one_type()
    ensures type_form { AreOneType }
    ensures formals { AreOneList }
{
    words_have_one_tree();
}
