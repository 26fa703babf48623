//! The stack of open frames.
ghost use Rattle.std.specs.Prelude.{◌≡◌, ◌∷◌, Some, OnOk, IfOk};
ghost use Rattle.mos_expr.specs.Machine.{stack_of, state_of, IsPopped};

use crate::frame::{Frame, Mode};
use mos_text::{NoMemory, let_go};

/// Opens a frame.
pub(crate) fn push(stack: &mut Vec<Frame>, frame: Frame) -> Result<(), NoMemory>
    ensures { OnOk result (stack_of stack.new.items ≡ frame ∷ stack_of stack.old.items) }
{
    match stack.push(frame) {
        Ok(()) => Ok(()),
        Err(refused) => {
            let_go(refused);
            Err(NoMemory)
        }
    }
}

/// Takes off the innermost frame.
pub(crate) fn pop(stack: &mut Vec<Frame>) -> Option<Frame>
    ensures { IsPopped stack.old.items stack.new.items result }
{
    stack.pop()
}

/// Opens a frame, and says what comes next.
pub(crate) fn opened(
    stack: &mut Vec<Frame>,
    frame: Frame,
    mode: Mode,
) -> Result<Option<Mode>, NoMemory>
    ensures { IfOk result (λ next. Some (mode, frame ∷ stack_of stack.old.items) ≡ state_of next (stack_of stack.new.items)) }
{
    match push(stack, frame) {
        Ok(()) => Ok(Some(mode)),
        Err(refused) => {
            let_go(mode);
            Err(refused)
        }
    }
}
