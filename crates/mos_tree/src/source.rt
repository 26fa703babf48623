//! A whole source: its heads and tops.
use crate::{Heading, Item, Parameter, Statement};
use mos_text::SourceText;
use sqlite_items::Items;

/// What stands behind the word `model`.
#[derive(Debug, Drop)]
pub enum ModelName {
    /// A string, with its escapes read.
    Quoted(SourceText),
    Named(SourceText),
}

/// A piece before all others.
#[derive(Debug, Drop)]
pub enum Head {
    /// The modules that are used; there is only one that can be named, perhaps several times.
    Uses {
        line: u32,
        modules: Items<SourceText>,
    },
    /// The option `noimplicit`, the only one that there is.
    NoImplicit {
        line: u32,
    },
}

/// A block of `declarations`.
#[derive(Debug, Drop)]
pub struct Declared {
    pub line: u32,
    pub items: Items<Item>,
}

/// What stands in a routine.
#[derive(Debug, Drop)]
pub enum RoutinePart {
    Declarations(Declared),
    Statement(Statement),
}

/// A procedure or a function.
#[derive(Debug, Drop)]
pub struct Routine {
    pub heading: Heading,
    pub parts: Items<RoutinePart>,
}

/// What stands in a model behind its heads.
#[derive(Debug, Drop)]
pub enum Top {
    Parameters {
        line: u32,
        parameters: Items<Parameter>,
    },
    Declarations(Declared),
    Routine(Routine),
    Forward(Heading),
    Statement(Statement),
}

/// A whole source.
#[derive(Debug, Drop)]
pub struct Tree {
    pub line: u32,
    pub name: ModelName,
    pub heads: Items<Head>,
    pub tops: Items<Top>,
}
