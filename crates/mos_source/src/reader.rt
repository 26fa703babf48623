//! The tree of a list of pieces.
ghost use Rattle.std.specs.Prelude.{◌≡◌, [], ◌≤◌, IfOk, IfErr};
ghost use Rattle.mos_tree.specs.Sizes.{size_of_tree, size_of_pieces};
ghost use Rattle.mos_source.specs.Machine as spec;
ghost use Rattle.mos_source.specs.Runs as runs;
ghost use Rattle.mos_source.specs.Sources.{limit, Source, IsSource, tree_of};
ghost use Rattle.mos_source.specs.Answers.{IsTree, Gives, IsFaultOf, BreaksBy};

use crate::fault::PieceFault;
use crate::frame::Frame;
use crate::laws::pieces_break_by_productions;
use crate::machine::{finished_tree, step};
use mos_text::Kind;
use mos_tree::{PieceForm, Tree};
use std::alloc::Global;

/// Takes one piece, or says what is wrong with it.
fn take_piece(alloc: Global, stack: &mut Vec<Frame>, piece: PieceForm) -> Result<(), PieceFault>
    ensures { runs.TakesOne (spec.stack_of stack.old.items) piece
        (spec.stack_of stack.new.items) result }
{
    let line = piece.line;
    match step(alloc, stack, piece) {
        Ok(None) => Ok(()),
        Ok(Some(kind)) => Err(PieceFault::At {
            line: Some(line),
            kind,
        }),
        Err(_) => Err(PieceFault::NoMemory),
    }
}

/// Takes the pieces, one after the other, up to the first that is wrong.
fn take_pieces(
    alloc: Global,
    stack: &mut Vec<Frame>,
    pieces: Vec<PieceForm>,
) -> Result<(), PieceFault>
    ensures { runs.TakesAll (spec.stack_of stack.old.items) pieces.items
        (spec.stack_of stack.new.items) result }
{
    for piece in pieces {
        match take_piece(alloc, stack, piece) {
            Ok(()) => {}
            Err(fault) => return Err(fault),
        }
    }
    Ok(())
}

/// Reads the pieces.
fn read(alloc: Global, pieces: Vec<PieceForm>) -> Result<Tree, PieceFault>
    ensures { runs.Answers (spec.run limit [] pieces.items) result }
{
    let mut stack = Vec::new(alloc);
    match take_pieces(alloc, &mut stack, pieces) {
        Ok(()) => match finished_tree(&mut stack) {
            Some(tree) => Ok(tree),
            None => Err(PieceFault::At {
                line: None,
                kind: Kind::Syntax,
            }),
        },
        Err(fault) => Err(fault),
    }
}

/// The tree of the source that these pieces spell; or the line of the faulty piece, behind the
/// longest run of pieces with which some source begins, and the kind of its fault.
pub fn source(alloc: Global, pieces: Vec<PieceForm>) -> Result<Tree, PieceFault>
    ensures found { IfOk result (IsTree pieces.items) }
    ensures only { (x : Source) → IsSource pieces.items x → Gives result (tree_of x) }
    ensures faulty { IfErr result (IsFaultOf pieces.items) }

    // The faulty piece is the one at which the grammar's productions break.
    ensures breaks { IfErr result (BreaksBy pieces.items) }

    // The tree has no more nodes and statements than its pieces.
    ensures no_larger { IfOk result (λ tree. size_of_tree tree ≤ size_of_pieces pieces.items) }
{
    pieces_break_by_productions();
    read(alloc, pieces)
}
