//! The tree of a source: what is written, form by form, without the brackets that only group; and
//! what one piece of a source is, from which the tree is put together.
//!
//! Each alternative of the grammar is a variant with its parts in order. Operators of one shape are
//! one variant with an enum that names the operator. Each statement, heading and item has the line
//! of the first token of the piece that it stands in; lines count from 1.
#![tactic(auto)]

mod count;
mod declaration;
mod expr;
mod form;
mod refusal;
mod source;
mod statement;
mod verdict;

pub use count::{nodes, statements};
pub use declaration::{
    BaseType, Dimension, FieldGroup, FormalGroup, Heading, Item, Parameter, TypeForm,
};
pub use expr::{AggregateOperator, BinaryOperator, Conversion, Expr, Group, Index, UnaryOperator};
pub use form::{ConditionKeyword, Form, Keyword, PieceForm, PieceKind, Simple, piece_kind_of};
pub use refusal::Refusal;
pub use source::{Declared, Head, ModelName, Routine, RoutinePart, Top, Tree};
pub use statement::{
    Alternative, Arm, Assignment, Direction, Label, LabelGroup, Reference, Statement,
};
pub use verdict::Verdict;
