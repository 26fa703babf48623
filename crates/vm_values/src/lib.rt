//! Values as the machine holds them, and what operators, conversions and functions make of them: each call answers what the
//! one table of definitions has.
#![tactic(auto)]

mod answer;
mod arguments;
mod comparisons;
mod functions;
mod list_functions;
mod numbers;
mod sets;
mod texts;
mod value;

pub use answer::Answer;
pub use comparisons::{at_least, at_most, differ, equal, greater, is_in, less, reverse_truth};
pub use functions::library;
pub use numbers::{add, divide, leave_over, multiply, negate, span, subtract};
pub use sets::{as_set, chain, make_list, make_set, meet, unite, without};
pub use texts::{field, join, show};
pub use value::Value;
