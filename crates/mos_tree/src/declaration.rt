//! Types, declarations, parameters and headings of routines.
use crate::Expr;
use mos_text::SourceText;
use sqlite_items::Items;

/// A type that can be a member, a cell, a field or a result.
#[derive(Debug, Drop)]
pub enum BaseType {
    Integer,
    Boolean,
    /// `string`
    Text,
    Named(SourceText),
}

/// What stands for one index of an array type.
#[derive(Debug, Drop)]
pub enum Dimension {
    /// The word `range`.
    Range,
    /// `set of` a type.
    Set(BaseType),
    /// An index set.
    IndexSet(Expr),
}

/// A type as it is written.
#[derive(Debug, Drop)]
pub enum TypeForm {
    Base(BaseType),
    /// The word `range`.
    Range,
    /// `set of` a type.
    Set(BaseType),
    /// `list of` a type.
    List(BaseType),
    /// `array(..) of` a type, with whether `dynamic` stands before it.
    Array {
        dynamic: bool,
        dimensions: Items<Dimension>,
        cell: BaseType,
    },
}

/// `NAME = E` of `parameters`.
#[derive(Debug, Drop)]
pub struct Parameter {
    pub line: u32,
    pub name: SourceText,
    pub default: Expr,
}

/// Fields of one type.
#[derive(Debug, Drop)]
pub struct FieldGroup {
    pub line: u32,
    pub names: Items<SourceText>,
    pub typ: TypeForm,
}

/// An item of `declarations`.
#[derive(Debug, Drop)]
pub enum Item {
    /// `NAME = E`
    Constant {
        line: u32,
        name: SourceText,
        value: Expr,
    },
    /// `a, b: type`
    Variables {
        line: u32,
        names: Items<SourceText>,
        typ: TypeForm,
    },
    /// `NAME = record .. end-record`, with the line of its first piece.
    Record {
        line: u32,
        name: SourceText,
        fields: Items<FieldGroup>,
    },
}

/// Formals of one type.
#[derive(Debug, Drop)]
pub struct FormalGroup {
    pub names: Items<SourceText>,
    pub typ: TypeForm,
}

/// The first piece of a routine, or that of `forward`.
#[derive(Debug, Drop)]
pub struct Heading {
    pub line: u32,
    pub name: SourceText,
    /// None where there are no brackets, too.
    pub formals: Items<FormalGroup>,
    /// The result of a function; none for a procedure.
    pub result: Option<BaseType>,
}
