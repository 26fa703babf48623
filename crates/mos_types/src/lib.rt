//! The types of expressions: one walk over an expression makes its typed tree and notes which rule that it breaks counts; and
//! what else stands in statements.
#![tactic(auto)]

mod assignment;
mod called;
mod fault;
mod laws;
mod looking;
mod statements;
mod typing;

pub use assignment::{Assigned, look_assignment};
pub use called::{Called, look_call};
pub use fault::{TypeFault, judge};
pub use laws::typed_trees_are_whole;
pub use looking::{look, look_all, look_index};
pub use statements::{Filled, look_as, look_block, look_condition, look_fill, look_labels};
pub use typing::type_of;
