//! The reader of images: bytes are read exactly, or refused at the first wrong field.
#![tactic(auto)]

mod code;
mod cursor;
mod decode;
mod entries;
mod fault;
mod read;

pub use fault::{Bad, FaultKind};
pub use read::{ImageFault, read_image};
