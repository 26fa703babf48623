//! What one piece is.
ghost use Rattle.std.specs.Prelude.{◌≡◌, ◌≤◌, ◌∷◌, length, MatchOption, IfOk};
ghost use Rattle.mos_tree.specs.Sizes.{size_of_form};
ghost use Rattle.mos_scan.specs.declared.grammar_word.Word.TheVariants as word_kind;
ghost use Rattle.mos_scan.specs.declared.token.TokenKind.TheVariants as token_kind;
ghost use Rattle.mos_form.specs.Phrases.{IsFormOf, Phrase, IsPhrase, answer, operator_word};
ghost use Rattle.mos_form.specs.Phrases as phrases;
ghost use Rattle.mos_form.specs.Fixed as fixed;
ghost use Rattle.mos_form.specs.Telling as spec;
ghost use Rattle.mos_typing.specs.Shapes.{AreNo};

use crate::cells::cell_assignment;
use crate::cut::{
    before_field, before_last, direction_of, enclosed, first, first_key, first_name, is_key,
    is_record, operator_of, parted,
};
use crate::expressions::{
    alternative, assignment, call, definition, filling, forall, guarded, initializations, typed_as,
};
use crate::head::{Head, Next, head_of, keyword_of, next_of};
use crate::headings::{forward, function, model, options, procedure};
use crate::lists::{labels, uses};
use mos_expr::trees_are_small;
use mos_scan::{TokenKind, Word};
use mos_text::{NoMemory, SourceText};
use mos_tree::{Assignment, ConditionKeyword, Form, Reference, Simple};
use mos_typing::{expressions_have_plain_words, names, types_are_small};
use std::alloc::Global;

/// What the piece with these words is.
pub fn form_of(alloc: Global, words: &[Word]) -> Result<Form, NoMemory>
    ensures found { IfOk result (IsFormOf words.now) }
    ensures only { IfOk result (λ form. (p : Phrase) → IsPhrase words.now p → form ≡ answer p) }
    ensures small { IfOk result (λ form. size_of_form form ≤ length words.now) }
{
    expressions_have_plain_words();
    trees_are_small();
    types_are_small();
    match before_last(words, TokenKind::Colon) {
        Some(labels) => alternative(alloc, labels),
        None => other(alloc, words),
    }
}

/// What the piece is, where it is no alternative.
fn other(alloc: Global, words: &[Word]) -> Result<Form, NoMemory>
    ensures { IfOk result (spec.TellsPiece words.now) }
{
    match first_key(words) {
        Some((kind, rest)) => keyed(alloc, kind, rest),
        None => match first_name(words) {
            Some((name, rest)) => named(alloc, words, name, rest),
            None => Ok(Form::Unknown),
        },
    }
}

/// What the piece is that begins with this token.
fn keyed(alloc: Global, kind: TokenKind, rest: &[Word]) -> Result<Form, NoMemory>
    ensures { IfOk result (spec.TellsPiece (word_kind.Key kind ∷ rest.now)) }
{
    match head_of(kind) {
        Head::Model => model(alloc, rest),
        Head::Uses => uses(alloc, rest),
        Head::Options => options(alloc, rest),
        Head::Procedure => procedure(alloc, false, rest),
        Head::Function => function(alloc, false, rest),
        Head::Forward => forward(alloc, rest),
        Head::Guarded(keyword) => behind_condition(alloc, keyword, rest),
        Head::Forall => loop_over(alloc, rest),
        Head::Initializations => data_block(alloc, rest),
        Head::Returned => set_result(alloc, rest),
        Head::Single => Ok(single(kind, rest)),
    }
}

/// The piece that is one token.
fn single(kind: TokenKind, rest: &[Word]) -> Form
    ensures { result ≡ fixed.single kind rest.now }
{
    match rest {
        [] => single_word(kind),
        [_, ..] => Form::Unknown,
    }
}

fn single_word(kind: TokenKind) -> Form
    ensures { result ≡ fixed.single_word kind }
{
    match keyword_of(kind) {
        Some(keyword) => Form::Keyword(keyword),
        None => match kind {
            TokenKind::Break => Form::Simple(Simple::Break),
            TokenKind::Next => Form::Simple(Simple::Next),
            _ => Form::Unknown,
        },
    }
}

/// The words of the condition behind its keyword.
fn condition(keyword: ConditionKeyword, rest: &[Word]) -> Option<&[Word]>
    ensures { MatchOption result (AreNo (phrases.around keyword) rest.now)
        (λ inside. rest.now ≡ phrases.around keyword inside.now) }
{
    match keyword {
        ConditionKeyword::If | ConditionKeyword::Elif => before_last(rest, TokenKind::Then),
        ConditionKeyword::Case => before_last(rest, TokenKind::Of),
        ConditionKeyword::While => enclosed(rest, TokenKind::OpenRound, TokenKind::CloseRound),
        ConditionKeyword::Until => Some(rest),
    }
}

/// What stands behind a keyword with a condition.
fn behind_condition(
    alloc: Global,
    keyword: ConditionKeyword,
    rest: &[Word],
) -> Result<Form, NoMemory>
    ensures { IfOk result
        (spec.TellsPiece (word_kind.Key (phrases.condition_word keyword) ∷ rest.now)) }
{
    match condition(keyword, rest) {
        Some(inside) => guarded(alloc, keyword, inside),
        None => Ok(Form::Unknown),
    }
}

/// What stands behind `forall`.
fn loop_over(alloc: Global, rest: &[Word]) -> Result<Form, NoMemory>
    ensures { IfOk result (spec.TellsPiece (word_kind.Key token_kind.Forall ∷ rest.now)) }
{
    match enclosed(rest, TokenKind::OpenRound, TokenKind::CloseRound) {
        Some(inside) => forall(alloc, inside),
        None => Ok(Form::Unknown),
    }
}

/// What stands behind `initializations`.
fn data_block(alloc: Global, rest: &[Word]) -> Result<Form, NoMemory>
    ensures { IfOk result (spec.TellsPiece (word_kind.Key token_kind.Initializations ∷ rest.now)) }
{
    match first(rest) {
        Some((word, name)) => match direction_of(word) {
            Some(direction) => initializations(alloc, direction, name),
            None => Ok(Form::Unknown),
        },
        None => Ok(Form::Unknown),
    }
}

/// What stands behind `returned`.
fn set_result(alloc: Global, rest: &[Word]) -> Result<Form, NoMemory>
    ensures { IfOk result (spec.TellsPiece (word_kind.Key token_kind.Returned ∷ rest.now)) }
{
    match first(rest) {
        Some((word, value)) => match operator_of(word) {
            Some(operator) => assignment(alloc, Reference::Returned, operator, value),
            None => Ok(Form::Unknown),
        },
        None => Ok(Form::Unknown),
    }
}

/// What the piece is that begins with this name.
fn named(alloc: Global, words: &[Word], name: &SourceText, rest: &[Word]) -> Result<Form, NoMemory>
    requires { words.now ≡ word_kind.Name name.now ∷ rest.now }
    ensures { IfOk result (spec.TellsPiece words.now) }
{
    match first(rest) {
        Some((next, behind)) => after_name(alloc, words, name, next, behind),
        None => Ok(Form::Bare(name.copy(alloc)?)),
    }
}

/// What the piece is that begins with this name and this word.
fn after_name(
    alloc: Global,
    words: &[Word],
    name: &SourceText,
    next: &Word,
    behind: &[Word],
) -> Result<Form, NoMemory>
    requires { words.now ≡ word_kind.Name name.now ∷ next.now ∷ behind.now }
    ensures { IfOk result (spec.TellsPiece words.now) }
{
    match next_of(next) {
        Next::Equal => equal(alloc, name, behind),
        Next::Fill => filled(alloc, name, behind),
        Next::OpenRound => bracketed(alloc, name, behind),
        Next::Dot => dotted(alloc, name, behind),
        Next::Assigns(operator) => set_variable(alloc, name, operator, behind),
        Next::List => listed(alloc, words),
        Next::Other => Ok(Form::Unknown),
    }
}

/// What stands behind a name and `=`.
fn equal(alloc: Global, name: &SourceText, behind: &[Word]) -> Result<Form, NoMemory>
    ensures { IfOk result
        (spec.TellsPiece (word_kind.Name name.now ∷ word_kind.Key token_kind.Equal ∷ behind.now)) }
{
    expressions_have_plain_words();
    if is_record(behind) {
        Ok(Form::RecordOf(name.copy(alloc)?))
    } else {
        definition(alloc, name, behind)
    }
}

/// What stands behind a name and `::`.
fn filled(alloc: Global, name: &SourceText, behind: &[Word]) -> Result<Form, NoMemory>
    ensures { IfOk result
        (spec.TellsPiece (word_kind.Name name.now ∷ word_kind.Key token_kind.Fill ∷ behind.now)) }
{
    match enclosed(behind, TokenKind::OpenSquare, TokenKind::CloseSquare) {
        Some(values) => filling(alloc, name, values),
        None => Ok(Form::Unknown),
    }
}

/// The assignment to a variable.
fn set_variable(
    alloc: Global,
    name: &SourceText,
    operator: Assignment,
    behind: &[Word],
) -> Result<Form, NoMemory>
    ensures { IfOk result (spec.TellsPiece (word_kind.Name name.now ∷ operator_word operator
        ∷ behind.now)) }
{
    let name = name.copy(alloc)?;
    assignment(alloc, Reference::Name(name), operator, behind)
}

/// What stands behind a name and a dot.
fn dotted(alloc: Global, name: &SourceText, behind: &[Word]) -> Result<Form, NoMemory>
    ensures { IfOk result
        (spec.TellsPiece (word_kind.Name name.now ∷ word_kind.Key token_kind.Dot ∷ behind.now)) }
{
    match first_name(behind) {
        Some((field, rest)) => after_field(alloc, name, field, rest),
        None => Ok(Form::Unknown),
    }
}

/// What stands behind a field of a variable.
fn after_field(
    alloc: Global,
    name: &SourceText,
    field: &SourceText,
    rest: &[Word],
) -> Result<Form, NoMemory>
    ensures { IfOk result
        (spec.TellsPiece
        (word_kind.Name name.now ∷ word_kind.Key token_kind.Dot ∷ word_kind.Name field.now
        ∷ rest.now)) }
{
    match first(rest) {
        Some((word, value)) => match operator_of(word) {
            Some(operator) => set_field(alloc, name, field, operator, value),
            None => Ok(Form::Unknown),
        },
        None => Ok(Form::Unknown),
    }
}

/// The assignment to a field of a variable.
fn set_field(
    alloc: Global,
    name: &SourceText,
    field: &SourceText,
    operator: Assignment,
    value: &[Word],
) -> Result<Form, NoMemory>
    ensures { IfOk result
        (spec.TellsPiece
        (word_kind.Name name.now ∷ word_kind.Key token_kind.Dot ∷ word_kind.Name field.now
        ∷ operator_word operator ∷ value.now)) }
{
    let name = name.copy(alloc)?;
    let field = field.copy(alloc)?;
    assignment(alloc, Reference::Field(name, field), operator, value)
}

/// What stands behind a name and a bracket: the arguments of a call, or a cell that is assigned to.
fn bracketed(alloc: Global, name: &SourceText, behind: &[Word]) -> Result<Form, NoMemory>
    ensures { IfOk result
        (spec.TellsPiece
        (word_kind.Name name.now ∷ word_kind.Key token_kind.OpenRound ∷ behind.now)) }
{
    expressions_have_plain_words();
    match parted(behind) {
        None => called(alloc, name, behind),
        Some((target, word, value)) => match operator_of(word) {
            Some(operator) => set_cell(alloc, name, target, operator, value),
            None => Ok(Form::Unknown),
        },
    }
}

/// The call with these words behind its bracket.
fn called(alloc: Global, name: &SourceText, behind: &[Word]) -> Result<Form, NoMemory>
    ensures { IfOk result (spec.TellsCall name.now behind.now) }
{
    match before_last(behind, TokenKind::CloseRound) {
        Some(arguments) => call(alloc, name, arguments),
        None => Ok(Form::Unknown),
    }
}

/// The assignment to a cell, or to a field in it, with these words behind its bracket.
fn set_cell(
    alloc: Global,
    name: &SourceText,
    target: &[Word],
    operator: Assignment,
    value: &[Word],
) -> Result<Form, NoMemory>
    ensures { IfOk result (spec.TellsCellSet name.now target.now operator value.now) }
{
    match before_last(target, TokenKind::CloseRound) {
        Some(indexes) => cell_assignment(alloc, name.copy(alloc)?, indexes, None, operator, value),
        None => match before_field(target) {
            Some((indexes, field)) => {
                let name = name.copy(alloc)?;
                let field = field.copy(alloc)?;
                cell_assignment(alloc, name, indexes, Some(field), operator, value)
            }
            None => Ok(Form::Unknown),
        },
    }
}

/// A list of names with their type, or of labels.
fn listed(alloc: Global, words: &[Word]) -> Result<Form, NoMemory>
    requires { spec.HasMore words.now }
    ensures { IfOk result (spec.TellsList words.now) }
{
    match parted(words) {
        Some((before, word, behind)) => {
            if is_key(word, TokenKind::Colon) {
                typed(alloc, before, behind)
            } else {
                labels(alloc, words)
            }
        }
        None => labels(alloc, words),
    }
}

/// The names with their type.
fn typed(alloc: Global, before: &[Word], behind: &[Word]) -> Result<Form, NoMemory>
    ensures { IfOk result (spec.TellsTyped before.now behind.now) }
{
    let found = names(alloc, before)?;
    match found {
        Some(names) => typed_as(alloc, names, behind),
        None => Ok(Form::Unknown),
    }
}
