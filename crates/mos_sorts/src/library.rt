//! What the functions and procedures of the library take and give.
ghost use Rattle.std.specs.Prelude.{◌≡◌, OnOk, not, ◌&&◌, option_copied};
ghost use Rattle.mos_sorts.specs.Library as spec;
ghost use Rattle.mos_text.specs.declared.kind.Kind.TheVariants.{Prefix};
ghost use Rattle.mos_sorts.specs.Kinds.{least, breaks};
ghost use Rattle.mos_sorts.specs.declared.typed.Typed.TheViews.{out-Typed};
ghost use Rattle.mos_sorts.specs.declared.function.Takes.TheVariants.{ModelToRun, EventToSend};

use crate::fits::{may_fit, sort_of_member};
use crate::trees::sort_of;
use crate::worst::{note, note_if};
use crate::{Gives, Sort, Takes, Typed, Wanted};
use mos_text::{Kind, NoMemory, SourceText, Text};
use std::alloc::Global;

fn is(wanted: Sort, argument: &Typed) -> bool
    ensures { result ≡ spec.is wanted argument.now }
{
    may_fit(wanted, sort_of(argument))
}

fn are_integers(all: &[Typed]) -> bool
    ensures { result ≡ spec.are_integers all.now }
{
    all.iter().all(|argument| is(Sort::Integer, argument))
}

fn has_size(sort: Option<Sort>) -> bool
    ensures { result ≡ spec.may_be spec.has_size sort }
{
    match sort {
        None | Some(Sort::Text | Sort::Range | Sort::Array(_)) => true,
        Some(Sort::Set(_) | Sort::List(_) | Sort::EmptySet | Sort::EmptyList) => true,
        Some(_) => false,
    }
}

fn is_list(sort: Option<Sort>) -> bool
    ensures { result ≡ spec.may_be spec.is_list sort }
{
    match sort {
        None | Some(Sort::List(_) | Sort::EmptyList) => true,
        Some(_) => false,
    }
}

fn is_sequence(sort: Option<Sort>) -> bool
    ensures { result ≡ spec.may_be spec.is_sequence sort }
{
    match sort {
        None | Some(Sort::List(_) | Sort::EmptyList | Sort::Range) => true,
        Some(_) => false,
    }
}

fn is_set(sort: Option<Sort>) -> bool
    ensures { result ≡ spec.may_be spec.is_set sort }
{
    match sort {
        None | Some(Sort::Range | Sort::Set(_) | Sort::EmptySet) => true,
        Some(_) => false,
    }
}

fn is_member(sort: Option<Sort>) -> bool
    ensures { result ≡ spec.may_be spec.is_member sort }
{
    match sort {
        None | Some(Sort::Integer | Sort::Boolean | Sort::Text) => true,
        Some(_) => false,
    }
}

fn can_be_found(list: Option<Sort>, member: Option<Sort>) -> bool
    ensures { result ≡ spec.can_be_found list member }
{
    match list {
        Some(Sort::List(wanted)) => may_fit(sort_of_member(wanted), member),
        None | Some(Sort::EmptyList) => is_member(member),
        Some(_) => false,
    }
}

fn is_place(argument: &Typed) -> bool
    ensures { result ≡ spec.is_place (out-Typed argument.now) }
{
    match argument {
        Typed::Wrong | Typed::Name(_, _, _) | Typed::Returned(_) => true,
        Typed::Cell { .. } | Typed::Field(_, _, _) => true,
        _ => false,
    }
}

fn is_dynamic_cell(argument: &Typed) -> bool
    ensures { result ≡ spec.is_dynamic_cell (out-Typed argument.now) }
{
    match argument {
        Typed::Wrong => true,
        Typed::Cell { dynamic, .. } => *dynamic,
        _ => false,
    }
}

fn is_wanted(wanted: Wanted, a: &Typed) -> bool
    ensures { result ≡ spec.is_wanted wanted a.now }
{
    match wanted {
        Wanted::Integer => is(Sort::Integer, a),
        Wanted::Text => is(Sort::Text, a),
        Wanted::Model => is(Sort::Model, a),
        Wanted::Event => is(Sort::Event, a),
        Wanted::Member => is_member(sort_of(a)),
        Wanted::Sequence => is_sequence(sort_of(a)),
        Wanted::List => is_list(sort_of(a)),
        Wanted::Set => is_set(sort_of(a)),
        Wanted::Collection => has_size(sort_of(a)),
        Wanted::Value => true,
        Wanted::Cell => is_dynamic_cell(a),
        Wanted::ModelPlace => is_place(a) && is(Sort::Model, a),
    }
}

fn are_none(all: &[Typed]) -> bool
    ensures { result ≡ spec.are_none all.now }
{
    match all {
        [] => true,
        _ => false,
    }
}

fn are_one(first: Wanted, all: &[Typed]) -> bool
    ensures { result ≡ spec.are_one first all.now }
{
    match all {
        [a] => is_wanted(first, a),
        _ => false,
    }
}

fn are_two(first: Wanted, second: Wanted, all: &[Typed]) -> bool
    ensures { result ≡ spec.are_two first second all.now }
{
    match all {
        [a, b] => is_wanted(first, a) && is_wanted(second, b),
        _ => false,
    }
}

fn are_three(first: Wanted, second: Wanted, third: Wanted, all: &[Typed]) -> bool
    ensures { result ≡ spec.are_three first second third all.now }
{
    match all {
        [a, b, c] => is_wanted(first, a) && is_wanted(second, b) && is_wanted(third, c),
        _ => false,
    }
}

fn are_list_and_member(all: &[Typed]) -> bool
    ensures { result ≡ spec.are_list_and_member all.now }
{
    match all {
        [a, b] => can_be_found(sort_of(a), sort_of(b)),
        _ => false,
    }
}

/// Whether there are arguments, and each is an integer.
fn some_integers(all: &[Typed]) -> bool
    ensures { result ≡ spec.some_integers all.now }
{
    match all {
        [] => false,
        [_, ..] => are_integers(all),
    }
}

/// Whether there are one, two or three texts.
fn are_texts(all: &[Typed]) -> bool
    ensures { result ≡ spec.are_texts all.now }
{
    are_one(Wanted::Text, all)
        || are_two(Wanted::Text, Wanted::Text, all)
        || are_three(Wanted::Text, Wanted::Text, Wanted::Text, all)
}

fn are_model_to_run(all: &[Typed]) -> bool
    ensures { result ≡ spec.are_taken ModelToRun all.now }
{
    are_one(Wanted::Model, all) || are_two(Wanted::Model, Wanted::Text, all)
}

fn are_event_to_send(all: &[Typed]) -> bool
    ensures { result ≡ spec.are_taken EventToSend all.now }
{
    are_two(Wanted::Integer, Wanted::Integer, all)
        || are_three(Wanted::Model, Wanted::Integer, Wanted::Integer, all)
}

/// Whether these arguments are taken; one without a type is right everywhere.
fn are_taken(takes: Takes, all: &[Typed]) -> bool
    ensures { result ≡ spec.are_taken takes all.now }
{
    match takes {
        Takes::Zero => are_none(all),
        Takes::One(first) => are_one(first, all),
        Takes::Two(first, second) => are_two(first, second, all),
        Takes::Three(first, second, third) => are_three(first, second, third, all),
        Takes::ListAndMember => are_list_and_member(all),
        Takes::Integers => some_integers(all),
        Takes::Values => true,
        Takes::SourceFile => are_texts(all),
        Takes::ModelAndImage => are_two(Wanted::ModelPlace, Wanted::Text, all),
        Takes::ModelToRun => are_model_to_run(all),
        Takes::EventToSend => are_event_to_send(all),
    }
}

fn of_sequence(sort: Option<Sort>) -> Option<Sort>
    ensures { result ≡ spec.of_sequence sort }
{
    match sort {
        Some(Sort::Range) => Some(Sort::Integer),
        Some(Sort::List(member)) => Some(sort_of_member(member)),
        _ => None,
    }
}

fn of_list(sort: Option<Sort>) -> Option<Sort>
    ensures { result ≡ spec.of_list sort }
{
    match sort {
        Some(Sort::List(member)) => Some(Sort::List(member)),
        Some(Sort::EmptyList) => Some(Sort::EmptyList),
        _ => None,
    }
}

fn first_sort(all: &[Typed]) -> Option<Sort>
    ensures { result ≡ spec.first_sort all.now }
{
    match all {
        [] => None,
        [first, ..] => sort_of(first),
    }
}

/// The type of a function's value, where it has one.
pub fn sort_given(gives: Gives, all: &[Typed]) -> Option<Sort>
    ensures { result ≡ spec.sort_given gives all.now }
{
    match gives {
        Gives::Nothing => None,
        Gives::Integer => Some(Sort::Integer),
        Gives::Boolean => Some(Sort::Boolean),
        Gives::Text => Some(Sort::Text),
        Gives::Event => Some(Sort::Event),
        Gives::Item => of_sequence(first_sort(all)),
        Gives::List => of_list(first_sort(all)),
    }
}

/// Whether it is called as a statement.
pub fn is_procedure(gives: Gives) -> bool
    ensures { result ≡ spec.is_procedure gives }
{
    match gives {
        Gives::Nothing => true,
        _ => false,
    }
}

/// The text before the first colon, where there is one.
fn prefix_of(text: &str) -> Option<&str>
    ensures { option_copied result ≡ spec.prefix_of text.now }
{
    match text.split_once(':') {
        Some((word, _)) => Some(word),
        None => None,
    }
}

/// Notes a text with a prefix that the name of a file cannot have, or, for a block of data, one that
/// its name cannot have.
fn note_text(
    alloc: Global,
    worst: &mut Option<Kind>,
    of_data: bool,
    text: &SourceText,
) -> Result<(), NoMemory>
    ensures { OnOk result
        (worst.new ≡ least worst.old (spec.wrong_word of_data (spec.prefix_of text.now))) }
{
    match prefix_of(text.as_str()) {
        Some(word) => note_word(alloc, worst, of_data, word),
        None => Ok(()),
    }
}

/// Notes a prefix that is not taken.
fn note_word(
    alloc: Global,
    worst: &mut Option<Kind>,
    of_data: bool,
    word: &str,
) -> Result<(), NoMemory>
    ensures { OnOk result (worst.new
        ≡ least worst.old (breaks (not (of_data && spec.is_data_prefix word.now)) (Prefix word.now))) }
{
    if of_data && is_data_prefix(word) {
        return Ok(());
    }
    let word = Text::from_string(String::from_str(alloc, word)?);
    note(worst, Kind::Prefix(word));
    Ok(())
}

/// Whether the name of a block of data may have this prefix.
fn is_data_prefix(word: &str) -> bool
    ensures { result ≡ spec.is_data_prefix word.now }
{
    word == "shmem" || word == "mempipe" || word == "bin"
}

/// Notes a text literal with a prefix that its place does not take.
pub fn note_prefix(
    alloc: Global,
    worst: &mut Option<Kind>,
    of_data: bool,
    name: &Typed,
) -> Result<(), NoMemory>
    ensures { OnOk result
        (worst.new ≡ least worst.old (spec.wrong_prefix of_data (out-Typed name.now))) }
{
    match name {
        Typed::Text(text) => note_text(alloc, worst, of_data, text),
        _ => Ok(()),
    }
}

/// Notes the prefixes of the names of two files.
#[tactic(auto, using(crate::proofs::Noting::least_append))]
fn note_both(
    alloc: Global,
    worst: &mut Option<Kind>,
    source: &Typed,
    image: &Typed,
) -> Result<(), NoMemory>
    ensures { OnOk result (worst.new
        ≡ least worst.old (spec.wrong_files_of (out-Typed source.now) (out-Typed image.now))) }
{
    note_prefix(alloc, worst, false, source)?;
    note_prefix(alloc, worst, false, image)?;
    Ok(())
}

/// Notes the prefixes of a source and an image.
fn note_files(alloc: Global, worst: &mut Option<Kind>, all: &[Typed]) -> Result<(), NoMemory>
    ensures { OnOk result (worst.new ≡ least worst.old (spec.wrong_files all.now)) }
{
    match all {
        [source] | [_, source] => note_prefix(alloc, worst, false, source),
        [_, source, image] => note_both(alloc, worst, source, image),
        _ => Ok(()),
    }
}

/// Notes the prefix of an image behind a model.
fn note_image(alloc: Global, worst: &mut Option<Kind>, all: &[Typed]) -> Result<(), NoMemory>
    ensures { OnOk result (worst.new ≡ least worst.old (spec.wrong_image all.now)) }
{
    match all {
        [_, image] => note_prefix(alloc, worst, false, image),
        _ => Ok(()),
    }
}

/// Notes the prefixes of names of files among such arguments.
fn note_names(
    alloc: Global,
    worst: &mut Option<Kind>,
    takes: Takes,
    all: &[Typed],
) -> Result<(), NoMemory>
    ensures { OnOk result (worst.new ≡ least worst.old (spec.wrong_names takes all.now)) }
{
    match takes {
        Takes::SourceFile => note_files(alloc, worst, all),
        Takes::ModelAndImage => note_image(alloc, worst, all),
        _ => Ok(()),
    }
}

/// Notes what is wrong in a call of the library that takes this, beside its arguments themselves.
pub fn note_call(
    alloc: Global,
    worst: &mut Option<Kind>,
    takes: Takes,
    all: &[Typed],
) -> Result<(), NoMemory>
    ensures { OnOk result (worst.new ≡ least worst.old (spec.wrong_call takes all.now)) }
{
    note_names(alloc, worst, takes, all)?;
    note_if(worst, !are_taken(takes, all), Kind::Args);
    Ok(())
}
