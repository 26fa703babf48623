//! Laws of sources, as contracts of calls that do nothing.
ghost use Rattle.mos_parse.specs.Laws.{NoSourceHasNeither, NoSourceHasBoth};
ghost use Rattle.mos_parse.specs.Laws.{SourcesHaveOneTree, SourcesHaveOneFault};
ghost use Rattle.mos_parse.specs.Laws.{SourcesHaveOneListOfForms};

use mos_form::words_have_one_form;
use mos_scan::{source_is_scanned_once, tokens_are_cut_once};
use mos_source::pieces_are_read_one_way;

/// A source has one tree or one fault of tokens or grammar, never both, never neither.
pub fn sources_are_parsed_one_way()
    ensures never_neither { NoSourceHasNeither }
    ensures never_both { NoSourceHasBoth }
    ensures one_tree { SourcesHaveOneTree }
    ensures one_fault { SourcesHaveOneFault }
{
    sources_have_one_list_of_forms();
    words_have_one_form();
    source_is_scanned_once();
    tokens_are_cut_once();
    pieces_are_read_one_way();
}

/// The pieces of a source have one list of forms.
pub(crate) fn sources_have_one_list_of_forms()
    ensures { SourcesHaveOneListOfForms }
{
    words_have_one_form();
    source_is_scanned_once();
    tokens_are_cut_once();
}
