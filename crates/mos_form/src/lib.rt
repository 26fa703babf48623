//! Forms: what one piece of a source is, by its words.
#![tactic(auto)]

mod cells;
mod cut;
mod expressions;
mod form_reader;
mod head;
mod headings;
mod laws;
mod lists;

pub use form_reader::form_of;
pub use laws::words_have_one_form;
