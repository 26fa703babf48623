//! An image as the bytes of its file, version 1.
#![tactic(auto)]

mod image_writer;
pub mod laws;

pub use image_writer::write_image;
