//! How many nodes and statements the least trees have.

use mos_tree::{Expr, Statement, nodes, statements};
use std::alloc::{AllocError, Global};

/// The nodes of an integer, and the statements of a `break`.
pub fn least_trees(alloc: Global) -> Result<String, AllocError> {
    let of_expression = nodes(&Expr::Integer(7));
    let of_statement = statements(&Statement::Break { line: 2 });
    format!(in alloc; "{of_expression} nodes, {of_statement} statements")
}
