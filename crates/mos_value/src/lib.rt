//! What the values of a model are, and what operators and functions make of them: definitions, which
//! the meaning of a model and the machine share, and calls that meet them.
#![tactic(auto)]

mod comparisons;
pub mod examples;
mod fault;
mod index;
mod items;
pub mod laws;
mod limits;
mod lists;
mod member;
mod numbers;
mod ranges;
mod sets;
mod texts;

pub use comparisons::{order_of, same_one, same_value, text_below, text_order_laws};
pub use fault::ValueFault;
pub use items::Items;
pub use limits::COLLECTION_LIMIT;
pub use lists::{add_to_list, chain_of, same_list};
pub use member::MemberType;
pub use numbers::{
    difference_of, division_laws, negative_of, product_of, quotient_of, remainder_of, sum_of,
};
pub use ranges::{range_has, range_set, range_size, same_range};
pub use sets::{
    add_to_set, has_item, inter_of, minus_of, same_set, set_of, take_from_set, union_of,
};
pub use texts::{into_shown, join_of, show_one, text_of};
