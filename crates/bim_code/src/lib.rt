//! The image of a compiled model as data: its tables, its instructions and the row of each, and
//! what their bytes are in a file.
#![tactic(auto)]

mod image;
mod instruction;
pub mod laws;
mod operands;
mod rows;

pub use image::{Default, Field, Form, Image, ImageType, Operand, Parameter, Point, Routine, Slot};
pub use instruction::{Comparison, Instruction};
pub use operands::Operands;
