//! The functions and procedures of the library, and what a name stands for that is not declared.

/// A function or procedure of the library, in the order of their numbers from 1.
#[derive(Clone, Copy)]
pub enum Function {
    Write,
    Writeln,
    Exit,
    Abs,
    MinList,
    MaxList,
    IsOdd,
    GetSize,
    GetFirst,
    GetLast,
    GetHead,
    GetTail,
    GetReverse,
    Reverse,
    FindFirst,
    FindLast,
    Substr,
    TextOf,
    IntegerOf,
    Exists,
    Create,
    DelCell,
    Finalize,
    GetClass,
    GetValue,
    GetId,
    EventEnd,
    Compile,
    Load,
    Run,
    Wait,
    GetNextEvent,
    PeekNextEvent,
    DropNextEvent,
    IsQueueEmpty,
    Send,
    GetStatus,
    GetExitCode,
    Stop,
    Unload,
}

/// What is wanted of one argument.
#[derive(Clone, Copy)]
pub enum Wanted {
    Integer,
    Text,
    Model,
    Event,
    /// An integer, a truth or a text.
    Member,
    /// A list or a range.
    Sequence,
    List,
    /// A set or a range.
    Set,
    /// What has a size: a text, a set, a list, a range or an array.
    Collection,
    /// Any value.
    Value,
    /// A cell of a dynamic array.
    Cell,
    /// A model that can be written: a variable, formal, cell or field, or `returned`.
    ModelPlace,
}

/// Which arguments a function takes.
#[derive(Clone, Copy)]
pub enum Takes {
    Zero,
    One(Wanted),
    Two(Wanted, Wanted),
    Three(Wanted, Wanted, Wanted),
    /// A list, and what can be looked for in it.
    ListAndMember,
    /// One integer or more.
    Integers,
    /// Any number of values.
    Values,
    /// The name of a source; options may stand before it, and then that of an image behind it.
    SourceFile,
    /// A model that can be written, and the name of its image.
    ModelAndImage,
    /// A model; parameters may stand behind it.
    ModelToRun,
    /// The class and the value of an event; a model may stand before them.
    EventToSend,
}

/// Of which type the value of a function is.
#[derive(Clone, Copy)]
pub enum Gives {
    /// It has none: it is a procedure.
    Nothing,
    Integer,
    Boolean,
    Text,
    Event,
    /// Of that of the items of its first argument.
    Item,
    /// Of that of its first argument, a list.
    List,
}

/// A function or procedure of the library, with what it takes and gives.
#[derive(Clone, Copy)]
pub struct Callable {
    pub function: Function,
    pub takes: Takes,
    pub gives: Gives,
}

/// What a name stands for where it is not declared.
#[derive(Clone, Copy)]
pub enum Undeclared {
    Function(Callable),
    /// The type of models.
    Model,
    /// The type of events.
    Event,
    /// A name of the module of jobs, which is not used.
    Jobs,
    /// A routine of another module.
    LeftOut,
    Nothing,
}
