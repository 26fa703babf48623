//! The library table: what the functions of the language make of integers, texts, sets, lists and ranges. Definitions,
//! which the meaning of a model and the machine share, and calls that meet them.
#![tactic(auto)]

mod characters;
pub mod examples;
mod fields;
mod function;
mod growing;
mod integers;
pub mod laws;
mod numerals;
mod printed;
mod sequences;

pub use characters::{part_of, text_size};
pub use function::LibraryFunction;
pub use integers::{absolute_of, greatest_of, is_odd, least_of};
pub use numerals::{integer_of_text, integer_of_truth};
pub use printed::{show_list, show_range, show_record, show_set};
pub use sequences::{
    first_of, first_of_range, head_of, last_of, last_of_range, place_of_first, place_of_last,
    reverse_of, size_of, tail_of,
};
