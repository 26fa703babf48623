//! Lanes, and crews that run each lane on a thread of its own.
//!
//! A lane is whatever can be run to an end or be told to quit; what its end then means, the lane says. A
//! crew starts a scoped thread for each lane but the first, runs the first on the caller's thread, and
//! gives the ends of all, in order. Where a start is refused, the first lane and those that were not
//! started quit, and those that were started run to their end. Nothing is promised of progress.
#![tactic(auto)]

mod begun;
mod crew;
mod crewed;
mod crewing;
mod lane;
mod mem_crew;
mod starts;
mod sure_crew;
mod thread_crew;

pub use crew::Crew;
pub use crewed::Crewed;
pub use lane::Lane;
pub use mem_crew::MemCrew;
pub use sure_crew::SureCrew;
pub use thread_crew::ThreadCrew;
