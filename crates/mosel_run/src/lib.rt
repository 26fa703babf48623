//! What the program does: it reads the files that its words name, runs their job, and writes the
//! report and the images, over any folder and any sink. What is to be answered is found before
//! anything is written; then it is delivered.
#![tactic(auto)]

mod answer;
mod deliver;
mod examples;
mod image;
mod laws;
mod reader;
mod run;
mod status;
mod top;
mod wanted;

pub use answer::{Answer, Deed, Put};
pub use examples::{hello_job, hello_model, several_puts};
pub use laws::{last_puts_stay, sources_are_judged, whole_jobs};
pub use mos_check::not_built;
pub use status::Status;
pub use top::tool;
pub use wanted::Wanted;
