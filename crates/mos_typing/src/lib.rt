//! Types and formals: the one tree of the words that spell them.
#![tactic(auto)]

mod answers;
mod base;
mod cut;
mod dimension;
mod formal;
mod laws;
mod name;
mod said;
mod shape;
mod sides;
mod types;

pub use answers::{formals, names, type_form};
pub use base::base_type;
pub use laws::{expressions_have_plain_words, types_are_small, words_are_one_type};
pub use name::behind_comma;
pub use sides::indexes_and_value;
