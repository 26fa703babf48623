//! The hub: it keeps one journal with its indexes, and answers each call by what the journal says.
#![tactic(auto)]

mod answers;
mod held;
mod hub;
mod kept;
mod opening;
mod serving;
mod story;
mod turn;

pub use answers::answer_of;
pub use held::{Acted, Held};
pub use hub::Hub;
pub use opening::can_open;
pub use story::{HubCall, HubHeld};
