//! Expressions: the one tree of the words that spell one.
//!
//! Words are read from left to right, one step each. What is open round the operand that is read
//! stands on a stack of frames, so brackets may nest as deep as there are words and nothing here
//! calls itself on what it reads.
#![tactic(auto)]

mod building;
mod fault;
mod frame;
mod laws;
mod level;
mod machine;
mod operand;
mod parts;
mod read;
mod reader;
mod stack;
mod taking;
mod tree;

pub use building::{with_item, with_name};
pub use fault::ExprFault;
pub use laws::{trees_are_small, words_have_one_tree};
pub use tree::{
    expression, expression_of_words, expressions_of_words, index_of_words,
    some_expressions_of_words,
};
