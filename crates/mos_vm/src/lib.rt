//! The machine that carries out an image: it keeps operands, held texts, values, output and ticks,
//! and does with them, instruction by instruction, what the definitions say.
#![tactic(auto)]

mod answers;
mod asked;
mod code;
mod machine;
mod parameters;
mod rows;
mod runner;
mod start;
mod stop;
mod value;
mod work;
mod written;

pub use runner::{RunResult, run};
pub use stop::Stop;
