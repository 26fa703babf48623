//! The models and runs of a journal: what each is, as the journal tells of it.
#![tactic(auto)]

mod asking;
mod entries;
mod index;
mod lane;
mod lanes;
mod lookups;
mod model;
mod run;
mod table;
mod telling;

pub use table::ModelTable;
