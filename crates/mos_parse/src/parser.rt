//! The parser: tokens, pieces, what each piece is, and the tree.
ghost use Rattle.std.specs.Prelude.{◌≡◌, ◌≤◌, ℕ, length, IfOk, IfErr};
ghost use Rattle.mos_text.specs.Limits.{source_limit};
ghost use Rattle.mos_text.specs.declared.kind.Kind.{Kind as kind_type};
ghost use Rattle.mos_tree.specs.declared.source.Tree.{Tree as tree_type};
ghost use Rattle.mos_tree.specs.Sizes.{size_of_tree};
ghost use Rattle.mos_parse.specs.Parsed.{IsParsed, IsSyntaxFault, line_or_last};
ghost use Rattle.mos_parse.specs.Answers.{GivesTree, GivesFault, IsFaultOf, BreaksBy};
ghost use Rattle.mos_parse.specs.Steps.{IsFormAt, HaveForms, Says, Reads};

use crate::fault::{SyntaxFault, of_tokens};
use crate::laws::{sources_are_parsed_one_way, sources_have_one_list_of_forms};
use mos_form::form_of;
use mos_scan::{Piece, Token, line_behind, piece_words, pieces, scan};
use mos_source::{PieceFault, source};
use mos_text::NoMemory;
use mos_tree::{PieceForm, Refusal, Tree};
use std::alloc::Global;

/// The tree of a source; or the line and kind of its first fault: of the first place that no tokens get
/// over, or, where there are tokens, of the first piece with which no source begins. Nothing behind
/// `end-model` is read.
pub fn parse(alloc: Global, bytes: &[u8]) -> Result<Tree, SyntaxFault>
    requires { length bytes.now ≤ source_limit }
    ensures found { IfOk result (IsParsed bytes.now) }
    ensures faulty { IfErr result (IsFaultOf bytes.now) }
    ensures only { (tree : tree_type) → IsParsed bytes.now tree → GivesTree result tree }
    ensures only_fault { (line : ℕ) (kind : kind_type) → IsSyntaxFault bytes.now line kind
        → GivesFault result line kind }

    // The faulty piece of a source with tokens is the one at which the grammar's productions break.
    ensures breaks { IfErr result (BreaksBy bytes.now) }

    // The tree has no more nodes and statements than the source has bytes.
    ensures no_larger { IfOk result (λ tree. size_of_tree tree ≤ length bytes.now) }
{
    sources_are_parsed_one_way();
    read(alloc, bytes)
}

/// What is answered of a source.
fn read(alloc: Global, bytes: &[u8]) -> Result<Tree, SyntaxFault>
    requires { length bytes.now ≤ source_limit }
    ensures found { IfOk result (IsParsed bytes.now) }
    ensures faulty { IfErr result (IsFaultOf bytes.now) }
    ensures breaks { IfErr result (BreaksBy bytes.now) }
    ensures no_larger { IfOk result (λ tree. size_of_tree tree ≤ length bytes.now) }
{
    sources_have_one_list_of_forms();
    match scan(alloc, bytes) {
        Ok(tokens) => parse_tokens(alloc, bytes, tokens.as_slice()),
        Err(fault) => Err(of_tokens(fault)),
    }
}

/// The tree of these tokens, or the line and kind of the faulty piece.
fn parse_tokens(alloc: Global, bytes: &[u8], tokens: &[Token]) -> Result<Tree, SyntaxFault>
    requires small { length bytes.now ≤ source_limit }
    requires few { length tokens.now ≤ length bytes.now }
    ensures { Reads bytes.now tokens.now result }
{
    let pieces = pieces(alloc, tokens)?;
    let forms = forms_of(alloc, bytes, tokens, pieces.as_slice())?;
    tree_of(alloc, bytes, forms)
}

/// The forms of the pieces, in order.
fn forms_of(
    alloc: Global,
    bytes: &[u8],
    tokens: &[Token],
    pieces: &[Piece],
) -> Result<Vec<PieceForm>, NoMemory>
    requires { length bytes.now ≤ source_limit }
    ensures { IfOk result (λ forms. HaveForms bytes.now tokens.now pieces.now forms.items) }
{
    let mut forms = Vec::new(alloc);
    for piece in pieces {
        forms.push(form_at(alloc, bytes, tokens, *piece)?)?;
    }
    Ok(forms)
}

/// The form of the piece, with its line.
fn form_at(
    alloc: Global,
    bytes: &[u8],
    tokens: &[Token],
    piece: Piece,
) -> Result<PieceForm, NoMemory>
    requires { length bytes.now ≤ source_limit }
    ensures { IfOk result (IsFormAt bytes.now tokens.now piece) }
{
    let words = piece_words(alloc, bytes, tokens, piece)?;
    Ok(PieceForm {
        line: piece.line,
        form: form_of(alloc, words.as_slice())?,
    })
}

/// The tree of these forms, or the line and kind of the faulty piece.
fn tree_of(alloc: Global, bytes: &[u8], forms: Vec<PieceForm>) -> Result<Tree, SyntaxFault>
    requires { length bytes.now ≤ source_limit }
    ensures { Says bytes.now forms.items result }
{
    match source(alloc, forms) {
        Ok(tree) => Ok(tree),
        Err(PieceFault::At { line, kind }) => Err(SyntaxFault::Refused(Refusal {
            line: line_or_last(bytes, line),
            kind,
        })),
        Err(PieceFault::NoMemory) => Err(SyntaxFault::NoMemory),
    }
}

/// The line, or, where there is none, the last line of the source.
fn line_or_last(bytes: &[u8], line: Option<u32>) -> u32
    requires { length bytes.now ≤ source_limit }
    ensures { result ≡ line_or_last bytes.now line }
{
    match line {
        Some(line) => line,
        None => line_behind(bytes),
    }
}
