//! Types as they are written in declarations, formals, records and results: what they stand for, which rules they
//! break, and the numbers of array and record types.
#![tactic(auto)]

pub mod arrays;
pub mod base;
pub mod records;
mod same;
mod table;

pub use arrays::{array_sort, index_of};
pub use base::{base_sort, note_structured, plain_sort};
pub use records::{add_fields, note_fields_twice, record_sort};
