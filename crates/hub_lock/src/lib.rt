//! A ticket lock over one shared value that stands for a list of entries, the journal.
//!
//! Threads share a `Keep`, and each lane works through a `Seat` of its own. A call draws a ticket, looks
//! until it is served, takes the value, steps it once, counts the entry if there is one, gives the value
//! back and passes the turn. What each lane has seen is a beginning of one journal, whatever the value is:
//! the promises stand for every `Story`. All turns stand in one order, which the end of the lock gives.
//! Nothing is promised of progress, of fairness, or of the order in which lanes come to the lock.
#![tactic(auto)]

mod keep;
mod lock;
mod mark;
mod rule;
mod seat;
mod story;
mod tally;

pub use keep::{Ended, Held, Keep};
pub use mark::Mark;
pub use seat::Seat;
pub use story::Story;
pub use tally::{Put, Refusal, Tally};
