//! The tree of a source, or its faulty line.
#![tactic(auto)]

mod fault;
mod laws;
mod parser;

pub use fault::SyntaxFault;
pub use laws::sources_are_parsed_one_way;
pub use parser::parse;
