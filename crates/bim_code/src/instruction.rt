/// How two values are compared.
#[derive(Clone, Copy, PartialEq, Debug, Drop)]
pub enum Comparison {
    Equal,
    NotEqual,
    Less,
    AtMost,
    Greater,
    AtLeast,
}

/// One instruction of the abstract machine, with its operands as the file holds them: a number that
/// means nothing is an instruction too. What each does is the machine's matter; `rows` has its code,
/// its printed name and its operands.
#[derive(Clone, Copy, PartialEq, Debug, Drop)]
pub enum Instruction {
    /// Takes a tick, or ends the run as spent.
    Tick,
    /// Puts an integer on the stack.
    PushInt(i32),
    /// Puts a boolean on the stack: 0 is false, 1 is true.
    PushBool(u32),
    /// Puts the constant of this number on the stack; one above 1,000,000 bytes is the fault TOOBIG.
    PushText(u32),
    /// Puts the value of this global slot on the stack.
    LoadGlobal(u32),
    /// Takes the top of the stack into this global slot.
    StoreGlobal(u32),
    /// The two values on top, each in the place of the other.
    Swap,
    /// The sum of the two integers on top.
    Add,
    /// The integer on top taken from the one below it.
    Subtract,
    /// Whether the value below the top compares so with the value on top.
    Compare(Comparison),
    /// Goes on at this address.
    Jump(u32),
    /// Goes on at this address if the boolean on top, which it takes, is true.
    JumpIf(u32),
    /// Goes on at this address if the boolean on top, which it takes, is false.
    JumpNot(u32),
    /// The printed form of the value on top.
    Show,
    /// Takes the text on top and holds it for the next `Line`.
    Write,
    /// Writes all that is held, and a newline if the boolean on top, which it takes, is true.
    Line,
    /// Ends the run with the integer on top as its code.
    End,
    /// Ends the run with the fault of this number, 1 to 12.
    Fault(u32),
}
