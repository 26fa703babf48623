//! Laws of the forms of pieces, as contracts of calls that do nothing.
ghost use Rattle.mos_form.specs.Laws.{NoWordsLackAForm, HaveOneForm};

use mos_expr::words_have_one_tree;
use mos_typing::{expressions_have_plain_words, words_are_one_type};

/// Words have a form, and only one.
pub fn words_have_one_form()
    ensures some { NoWordsLackAForm }
    ensures one { HaveOneForm }
{
    words_have_one_tree();
    words_are_one_type();
    expressions_have_plain_words();
}
