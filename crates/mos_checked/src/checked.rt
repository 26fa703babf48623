//! A whole checked source.
ghost use Rattle.std.specs.Prelude.{◌≡◌};

use crate::Step;
use mos_sorts::{ArraySort, RecordSort, Sort, Value};
use mos_text::SourceText;
use sqlite_items::Items;

/// A formal, or a variable of a routine.
#[derive(Drop)]
pub struct Variable {
    pub name: SourceText,
    pub sort: Sort,
}

/// A parameter, with the value that it has where none is given.
#[derive(Drop)]
pub struct Parameter {
    pub name: SourceText,
    /// Integer, boolean or string.
    pub sort: Sort,
    pub default: Value,
}

/// A constant, which has its value before anything runs.
#[derive(Drop)]
pub struct Constant {
    pub name: SourceText,
    pub sort: Sort,
    pub value: Value,
}

/// A procedure or a function.
#[derive(Drop)]
pub struct CheckedRoutine {
    /// The line of its heading.
    pub line: u32,
    pub name: SourceText,
    /// In order; those of a type with parts are passed by their place, the others by their value.
    pub formals: Items<Variable>,
    /// The type of a function's result; none for a procedure.
    pub result: Option<Sort>,
    /// Its own variables in order of declaration, without its formals. Each call begins with their defaults.
    pub variables: Items<Variable>,
    /// Its own constants.
    pub constants: Items<Constant>,
    pub steps: Items<Step>,
}

/// What a piece is that has no step.
#[derive(Clone, Copy, Drop)]
pub enum SilentForm {
    Uses,
    Options,
    Parameters,
    Declarations,
    Forward,
}

/// A piece that has no step and is no routine: a head, parameters, declarations, or a heading with `forward`.
#[derive(Clone, Copy, Drop)]
pub struct SilentPiece {
    pub line: u32,
    pub form: SilentForm,
}

/// A source that breaks no rule of types.
#[derive(Drop)]
pub struct Checked {
    /// The parts of the record types and of the array types: a type is a number of these.
    pub records: Items<RecordSort>,
    pub arrays: Items<ArraySort>,
    /// The model's parameters and constants, in order of declaration.
    pub parameters: Items<Parameter>,
    pub constants: Items<Constant>,
    /// The names of the model's variables, in order of declaration.
    pub variables: Items<SourceText>,
    /// Their types, in the same order.
    pub sorts: Items<Sort>,
    /// In the order in which they stand; no two have one name.
    pub routines: Items<CheckedRoutine>,
    pub steps: Items<Step>,
    /// The size count of the source, or the greatest number of 64 bits where that is above.
    pub size: u64,
    /// The pieces that have no step and are no routine, in the order in which they stand.
    pub silent: Items<SilentPiece>,
}

impl Checked {
    /// The names of the model's variables, in order of declaration.
    pub fn globals(&self) -> &[SourceText]
        ensures { result.now ≡ self.now.variables }
    {
        self.variables.as_slice()
    }

    /// The types of the model's variables, in the same order.
    pub fn global_sorts(&self) -> &[Sort]
        ensures { result.now ≡ self.now.sorts }
    {
        self.sorts.as_slice()
    }
}
