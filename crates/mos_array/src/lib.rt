//! Arrays: cells by lists of indexes, in a fixed order, and what reading and writing them answers.
//!
//! A dense array has a cell for each index list of its index sets, in row order; a dynamic one has those
//! that were written, in the order in which they were made.
#![tactic(auto)]

mod array;
mod cell_type;
mod cells;
mod indexes;
pub mod laws;
mod parts;
mod rows;
mod scalars;

pub use array::Array;
pub use cell_type::{CellType, ScalarType, default_cell, default_scalar};
pub use cells::{Cell, CellValue};
