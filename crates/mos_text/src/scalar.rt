//! Values without parts.
ghost use Rattle.std.specs.Prelude.{◌≡◌, IfOk};

use crate::{NoMemory, Text};
use std::alloc::Global;

/// A value without parts.
#[derive(Debug, Drop)]
pub enum Scalar {
    Int(i32),
    Bool(bool),
    Str(Text),
    /// A loaded model's number; 0 is no model.
    Model(u32),
    /// An event's class and value.
    Event(i32, i32),
}

impl Scalar {
    /// A copy of the value.
    pub fn copy(&self, alloc: Global) -> Result<Scalar, NoMemory>
        ensures { IfOk result (λ s. s ≡ self.now) }
    {
        Ok(match self {
            Scalar::Int(number) => Scalar::Int(*number),
            Scalar::Bool(truth) => Scalar::Bool(*truth),
            Scalar::Str(text) => Scalar::Str(text.copy(alloc)?),
            Scalar::Model(number) => Scalar::Model(*number),
            Scalar::Event(class, value) => Scalar::Event(*class, *value),
        })
    }
}
