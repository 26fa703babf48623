//! The typing rules of expressions, form by form: what each is and what is wrong with it, given what was seen of its parts.
#![tactic(auto)]

pub mod calls;
mod expected;
pub mod fields;
pub mod forms;
pub mod indexes;
pub mod naming;
pub mod rows;
mod side;

pub use expected::Expected;
pub use side::Side;
