//! The verifier: an image is accepted exactly where it keeps all ten rules, and else refused at the least
//! rule that it breaks and the first place.
#![tactic(auto)]

mod kinds;
pub mod laws;
mod points;
mod rows;
mod same;
mod stacks;
mod verifier;

pub use kinds::{Kind, Sort};
pub use rows::{Outcome, Told};
pub use verifier::{Verified, VerifyFault, verify};
