//! The command that the words of the command line mean.
#![tactic(auto)]

mod command_line;

pub use command_line::{Command, WordFault, command};
