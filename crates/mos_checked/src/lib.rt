//! The checked tree of a source: what is left of it once each name, operator and type is resolved. Whoever runs or
//! compiles a source stands on it, and never looks at a type or a scope again.
//!
//! Each statement, arm, group of labels and header keeps the line of the first token of its piece; lines count from 1.
#![tactic(auto)]

mod checked;
mod look_up;
mod step;

pub use checked::{
    Checked, CheckedRoutine, Constant, Parameter, SilentForm, SilentPiece, Variable,
};
pub use look_up::{constant_named, default_named, passed_by_place, routine_named, sort_named};
pub use step::{DataLabel, DataLabels, Step, StepAlternative, StepArm, line_of};
