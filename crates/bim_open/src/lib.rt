//! A file that is to be an image: read, verified and listed, or refused at its first fault.
#![tactic(auto)]

pub mod laws;
mod open;

pub use open::{OpenFault, list_image, open_image};
