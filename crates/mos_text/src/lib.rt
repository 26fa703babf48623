//! The values that every layer shares, and the outside: folders and sinks.
//!
//! Texts and blobs are lists of bytes to a contract, so that a copy equals what it copies. Kinds of
//! verdict and kinds of fault are two enums, since a run can end only with a fault.
#![tactic(auto)]

mod blob;
mod dir_folder;
mod entries;
mod failing_calls;
mod fault_kind;
mod file_name;
mod folder;
mod kind;
mod letting_go;
mod limits;
mod mem_folder;
mod mem_sink;
mod no_memory;
mod out_sink;
mod place;
mod scalar;
mod shared_blob;
mod sink;
mod source_text;
mod sure_folder;
mod sure_sink;
mod text;
mod typ;

pub use blob::Blob;
pub use dir_folder::DirFolder;
pub use fault_kind::FaultKind;
pub use file_name::{is_file_name, is_image_name, is_source_name};
pub use folder::{Folder, Got, Stored};
pub use kind::Kind;
pub use letting_go::let_go;
pub use limits::{OUTPUT_LIMIT, SOURCE_LIMIT, TEXT_LIMIT};
pub use mem_folder::MemFolder;
pub use mem_sink::MemSink;
pub use no_memory::NoMemory;
pub use out_sink::OutSink;
pub use place::Place;
pub use scalar::Scalar;
pub use shared_blob::SharedBlob;
pub use sink::{Sink, Written, Wrote, write_whole};
pub use source_text::SourceText;
pub use sure_folder::SureFolder;
pub use sure_sink::SureSink;
pub use text::{Text, TextFault};
pub use typ::Typ;
