//! Why words have no tree.
use mos_text::NoMemory;

/// Why words have no tree.
#[derive(Clone, Copy, Debug, PartialEq, Drop)]
pub enum ExprFault {
    /// They spell no expression.
    NoExpr,
    /// They spell an expression whose tree is higher than 500.
    Deep,
    NoMemory,
}

impl From<NoMemory> for ExprFault {
    ghost use Rattle.std.specs.Prelude.{◌≡◌};
    ghost use Rattle.mos_expr.specs.declared.fault.ExprFault.TheVariants.{NoMemory};

    ghost from_gives = { λ _ fault. fault ≡ NoMemory };

    fn from(_refused: NoMemory) -> ExprFault {
        ExprFault::NoMemory
    }
}
