//! The values of constants.
ghost use Rattle.std.specs.Prelude.{◌≡◌, IfOk};

use mos_text::{NoMemory, Scalar};
use mos_value::Items;
use std::alloc::Global;

/// The value of a constant.
#[derive(Drop)]
pub enum Value {
    One(Scalar),
    /// Each member once, in the order in which they were added.
    Set(Items),
    List(Items),
    /// The integers from one to another, both among them.
    Range(i32, i32),
}

impl Value {
    /// The value once more.
    pub fn copy(&self, alloc: Global) -> Result<Value, NoMemory>
        ensures { IfOk result (λ x. x ≡ self.now) }
    {
        match self {
            Value::One(scalar) => Ok(Value::One(scalar.copy(alloc)?)),
            Value::Set(all) => Ok(Value::Set(all.copy(alloc)?)),
            Value::List(all) => Ok(Value::List(all.copy(alloc)?)),
            Value::Range(first, last) => Ok(Value::Range(*first, *last)),
        }
    }
}
