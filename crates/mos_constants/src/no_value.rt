//! Why a constant expression has no value.
use mos_text::NoMemory;
use mos_value::ValueFault;
use std::alloc::AllocError;

/// Why a constant expression has no value.
#[derive(Clone, Copy, Debug, PartialEq, Drop)]
pub enum NoValue {
    /// A fault, or a part without a value.
    Fault,
    NoMemory,
}

impl From<NoMemory> for NoValue {
    ghost use Rattle.std.specs.Prelude.{◌≡◌};
    ghost use Rattle.mos_constants.specs.declared.no_value.NoValue.TheVariants.{NoMemory};

    ghost from_gives = { λ _ none. none ≡ NoMemory };

    fn from(_refused: NoMemory) -> NoValue {
        NoValue::NoMemory
    }
}

impl From<AllocError> for NoValue {
    ghost use Rattle.std.specs.Prelude.{◌≡◌};
    ghost use Rattle.mos_constants.specs.declared.no_value.NoValue.TheVariants.{NoMemory};

    ghost from_gives = { λ _ none. none ≡ NoMemory };

    fn from(_refused: AllocError) -> NoValue {
        NoValue::NoMemory
    }
}

impl From<ValueFault> for NoValue {
    ghost use Rattle.std.specs.Prelude.{◌≡◌};
    ghost use Rattle.mos_constants.specs.Found.{no_value_of};

    ghost from_gives = { λ fault none. none ≡ no_value_of fault };

    fn from(fault: ValueFault) -> NoValue {
        match fault {
            ValueFault::Fault(_) => NoValue::Fault,
            ValueFault::NoMemory => NoValue::NoMemory,
        }
    }
}
