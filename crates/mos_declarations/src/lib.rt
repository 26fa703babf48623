//! The pieces of declarations: parameters, constants, variables, records, and the headings of routines. Each piece is
//! looked at whole; the first one that breaks a rule is where the source is refused.
#![tactic(auto)]

mod declaring;
mod defaults;
mod formals;
mod headings;
mod places;
mod records;
mod written;

pub use declaring::items;
pub use defaults::parameters;
pub use headings::{announce, begin_routine, leave_routine};
pub use places::here;
