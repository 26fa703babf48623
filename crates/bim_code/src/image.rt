use crate::instruction::Instruction;
use mos_text::Text;
use sqlite_items::Items;

/// A compiled model. Each number in it counts from 0 in the table that it names: a type is a place
/// in `types`, a name or a text a place in `constants`, an address a byte offset in the code.
#[derive(Debug, Drop)]
pub struct Image {
    pub constants: Items<Text>,
    pub types: Items<ImageType>,
    pub params: Items<Parameter>,
    /// The type of each global slot.
    pub globals: Items<u16>,
    pub routines: Items<Routine>,
    pub points: Items<Point>,
    pub code: Items<Instruction>,
}

/// A type, whose parts are the numbers of other types. The file's tags 1 to 10 are in this order.
#[derive(Debug, Drop)]
pub enum ImageType {
    Integer,
    Boolean,
    Str,
    Model,
    Event,
    Range,
    /// A set, by the type of its members.
    Set(u16),
    /// A list, by the type of its members.
    List(u16),
    /// An array, by the type of each index and that of its cells.
    Array {
        dynamic: bool,
        indexes: Items<u16>,
        cell: u16,
    },
    Record(Items<Field>),
}

/// A field of a record: the constant that is its name, and its type.
#[derive(Clone, Copy, PartialEq, Debug, Drop)]
pub struct Field {
    pub name: u32,
    pub typ: u16,
}

/// A parameter: the constant that is its name, the global slot that holds it, and its value where
/// the run's parameter text gives none.
#[derive(Clone, Copy, PartialEq, Debug, Drop)]
pub struct Parameter {
    pub name: u32,
    pub slot: u32,
    pub default: Default,
}

/// The default of a parameter.
#[derive(Clone, Copy, PartialEq, Debug, Drop)]
pub enum Default {
    Number(i32),
    Truth(bool),
    /// The constant of this number.
    Constant(u32),
}

/// A routine: where its code begins, how many of its slots are arguments (these come first), its
/// slots, and the type of its result if it is a function.
#[derive(Debug, Drop)]
pub struct Routine {
    pub address: u32,
    pub arguments: u16,
    pub slots: Items<Slot>,
    pub result: Option<u16>,
}

/// A local slot of a routine.
#[derive(Clone, Copy, PartialEq, Debug, Drop)]
pub struct Slot {
    pub typ: u16,
    pub by_reference: bool,
}

/// The stack that is known at an address, its top last.
#[derive(Debug, Drop)]
pub struct Point {
    pub address: u32,
    pub stack: Items<Operand>,
}

/// What is known of one entry of the stack.
#[derive(Clone, Copy, PartialEq, Debug, Drop)]
pub struct Operand {
    pub typ: u16,
    pub form: Form,
}

/// What stands on the stack: a value of a type, a place that holds one, or a walk over members.
#[derive(Clone, Copy, PartialEq, Debug, Drop)]
pub enum Form {
    Value,
    Place,
    Walk,
}
