//! Types of the language, the names that can be seen at a place, the typed tree of an expression, and the tables of
//! operators and of the library: which there are on which types.
#![tactic(auto)]

pub mod bound;
mod entries;
pub mod fits;
mod function;
pub mod library;
pub mod meaning;
pub mod names;
pub mod operators;
mod scope;
mod sort;
pub mod trees;
mod typed;
mod value;
pub mod vocabulary;
pub mod worst;

pub use entries::Entries;
pub use function::{Callable, Function, Gives, Takes, Undeclared, Wanted};
pub use scope::{Bound, Entry, Role, Scope, Signature};
pub use sort::{ArraySort, RecordSort, Sort};
pub use typed::{Operation, Typed, Where};
pub use value::Value;
