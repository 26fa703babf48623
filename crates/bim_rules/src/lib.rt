//! The rules of an image as far as they speak of numbers, types, addresses, parts and ticks: which of
//! them an image breaks first, and where.
#![tactic(auto)]

mod breach;
mod code;
mod code_map;
mod image;
mod tables;
mod types;

pub use breach::{Breach, Rule, Table, note};
pub use code::named_address;
pub use code_map::CodeMap;
pub use image::first_plain;
pub use tables::type_of_global;
